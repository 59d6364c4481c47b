//! The laws of the text of certificates: what is written reads back, and nothing else reads so.

ghost use Rattle.hw_cert.specs.Forms.{FormSpelled, ThirdReads, ThirdStreams, ValidReads, ValidStreams};
ghost use Rattle.hw_cert.specs.Rows.{TextRows};
ghost use Rattle.hw_cert.specs.Told.{TextTold};
ghost use Rattle.hw_cert.specs.Laws.{LineSpelled, HeaderSpelled, CertSpelled, StreamSteps, StreamReads, OverlongPasses, PlainForms, ThirdForms, ReadForms, PlainRead};

/// Bytes read as a line exactly where they are the line's one text.
pub fn line_spelled()
    ensures { LineSpelled }
{}

/// Bytes read as a header exactly where they are the header's one text.
pub fn header_spelled()
    ensures { HeaderSpelled }
{}

/// Bytes read as a certificate exactly where they are its one text.
pub fn cert_spelled()
    ensures { CertSpelled }
{}

/// Taking what comes next, again and again, gives the lines of the stream.
pub fn stream_steps()
    ensures { StreamSteps }
{}

/// Where no limit is passed, the stream of lines is what the bytes read as.
pub fn stream_reads()
    ensures { StreamReads }
{}

/// A certificate ends at a limit only where one of its lines passes it.
pub fn overlong_passes()
    ensures { OverlongPasses }
{}

/// Bytes have a form of a version exactly where they are the text of a line of that form.
pub fn form_spelled()
    ensures { FormSpelled }
{}

/// Valid lines of a problem have a text that reads back as them.
pub fn valid_reads()
    ensures { ValidReads }
{}

/// The lines of the text of valid lines are these, unless one of them passes a limit.
pub fn valid_streams()
    ensures { ValidStreams }
{}

/// Valid lines of a problem, whatever their forms, have a text of the third version that reads back as
/// them.
pub fn third_reads()
    ensures { ThirdReads }
{}

/// The lines of the text of the third version of valid lines are these, unless one of them passes a
/// limit.
pub fn third_streams()
    ensures { ThirdStreams }
{}

/// Bytes that tell lines under a version are the text of these lines, and after it bytes without a line
/// feed.
pub fn text_told()
    ensures { TextTold }
{}

/// The second version has the forms of plain lines.
pub fn plain_forms()
    ensures { PlainForms }
{}

/// The third version has the forms of all lines.
pub fn third_forms()
    ensures { ThirdForms }
{}

/// Lines that are read up to a version have its forms.
pub fn read_forms()
    ensures { ReadForms }
{}

/// Lines that are read up to the second version are plain.
pub fn plain_read()
    ensures { PlainRead }
{}

/// What is read of texts of the third version, worked out by hand, and why others aren't read.
pub fn text_rows()
    ensures { TextRows }
{}
