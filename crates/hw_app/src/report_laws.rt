//! The laws of reports, whatever the names of the inputs and the desk: functions without a body.

ghost use Rattle.hw_app.specs.LawsOfReports.{ChartsBytesAsChecked, ChartsBytesAsVerified, OneCertificateReport, OneReportOfChart, OneReportOfClash, OneFlatText, PrintedBounds, VerifiedAsChecked};

/// The bytes of a subject's inputs and of a certificate decide the report of `check`; and that of
/// `verify` and of `renew`, and it is the same one.
pub fn one_certificate_report()
    ensures { OneCertificateReport }
{}

/// The bytes of the inputs and of a certificate decide the report of `chart`.
pub fn one_chart()
    ensures { OneReportOfChart }
{}

/// The bytes of the inputs, of a clash and of a certificate decide the report of `check clash`, and
/// those of a port the report of `explain port`.
pub fn one_clash_report()
    ensures { OneReportOfClash }
{}

/// The bytes of a port's files decide the report of `flatten`.
pub fn one_flat_text()
    ensures { OneFlatText }
{}

/// No permitted timetable carries more than a bound that `verify` prints, of any subject.
pub fn printed_bounds()
    ensures { PrintedBounds }
{}

/// `verify` reports what `check` reports, unless the certificate is of the third version.
pub fn verified_as_checked()
    ensures { VerifiedAsChecked }
{}

/// `chart` draws exactly where `verify` shows something, with the same verdict and the same bound, and
/// otherwise says the same.
pub fn charts_as_verified()
    ensures { ChartsBytesAsVerified }
{}

/// `chart` draws exactly where `check` shows something, with the same verdict, and otherwise says the
/// same, unless the certificate is of the third version.
pub fn charts_as_checked()
    ensures { ChartsBytesAsChecked }
{}
