//! The laws of what a certificate proves of a port, each a function without a body.

ghost use Rattle.hw_subject_laws.specs.Ports.{SoundPortVerdict, SoundPortBounds};

/// Valid lines of a port's flat problem show a best timetable by the port's own rules, or that the
/// port permits none.
pub fn sound_port_verdict()
    ensures { SoundPortVerdict }
{}

/// No timetable that the port permits carries more than the bound of valid lines of its flat problem.
pub fn sound_port_bounds()
    ensures { SoundPortBounds }
{}
