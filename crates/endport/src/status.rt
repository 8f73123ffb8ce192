//! How the program ends.

ghost use Rattle.std.specs.Prelude.{◌≡◌};
ghost use Rattle.endport.specs.Jobs.{code_of};

/// How the program ends, and what was written then.
#[derive(Clone, Copy, Debug, PartialEq, Eq)]
pub enum Status {
    /// The whole text: the report has no alarms, its certificate, the run ended, the layouts, or a certificate is
    /// verified.
    Done,
    /// The whole text: the report has alarms.
    Alarms,
    /// One line: the source is refused.
    Refused,
    /// The usage text.
    Usage,
    /// Nothing: the source failed.
    ReadFault,
    /// A front of the text: the sink failed.
    WriteFault,
    /// Nothing: memory ran out.
    Memory,
    /// Nothing: the file has more bytes than its command takes: 1,048,576 of a source, 16,777,216 of a certificate.
    TooLong,
    /// The run's text: it has not ended after its steps.
    StepsUsedUp,
    /// The run's text: something undefined happened.
    Undefined,
    /// The run's text: it wants an input, and there is none.
    InputEnded,
    /// One line: the heads of a certificate don't show that the machines agree.
    NotVerified,
    /// One line: the file is no certificate.
    BadCertificate,
}

impl Status {
    /// The process's exit code.
    pub fn code(self) -> u8
        ensures { result ≡ code_of self }
    {
        match self {
            Status::Done => 0,
            Status::Alarms => 1,
            Status::Refused => 2,
            Status::Usage => 3,
            Status::ReadFault => 4,
            Status::WriteFault => 5,
            Status::Memory => 6,
            Status::TooLong => 7,
            Status::StepsUsedUp => 8,
            Status::Undefined => 9,
            Status::InputEnded => 10,
            Status::NotVerified => 11,
            Status::BadCertificate => 12,
        }
    }
}
