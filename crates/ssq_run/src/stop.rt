//! Why the program stops before its job is done.

ghost use Rattle.std.specs.Prelude.{◌≡◌, ℕ};
ghost use Rattle.ssq_run.specs.Stopping.{status_of};

use ssq_accept::Refusal;
use ssq_outside::{InputError, Name, OutError};
use ssq_plans::NameText;
use ssq_sink::SinkFault;
use ssq_value::Text;
use ssq_words::AskError;
use std::alloc::AllocError;
use std::fmt;

/// What is wrong with a bad line: the first cause.
#[derive(Drop)]
pub enum Wrong {
    /// It has more than 1,048,576 bytes.
    TooLong,
    NotJson,
    NotObject,
    /// The first column, in declared order, of which it has a value of another type.
    WrongType { column: Text },
    /// Its event time is missing.
    NoEventTime,
}

/// Shown as in the line that tells it.
impl fmt::Display for Wrong {
    ghost use Rattle.std.specs.Prelude.{Some};
    ghost use Rattle.ssq_run.specs.Lines.{wrong_text};

    ghost output = { λ wrong. Some (wrong_text wrong) };

    fn fmt<W: fmt::Write>(&self, f: &mut fmt::Formatter<W>) -> fmt::Result {
        match self {
            Wrong::TooLong => f.write_str("TooLong"),
            Wrong::NotJson => f.write_str("NotJson"),
            Wrong::NotObject => f.write_str("NotObject"),
            Wrong::WrongType { column } => write!(f, "WrongType {}", column.as_str()),
            Wrong::NoEventTime => f.write_str("NoEventTime"),
        }
    }
}

/// Why the program stops before its job is done. Each cause has a status and a line of its own. A stream is told by its declared
/// name, and parts, lines and epochs are counted from 0.
#[derive(Drop)]
pub enum Stop {
    /// The words are no command.
    Usage,
    /// The file is no query that is run.
    Refused(Refusal),
    /// The first line of a planned epoch that shows nothing is bad.
    BadLine {
        stream: Text,
        part: u32,
        offset: u64,
        wrong: Wrong,
    },
    /// On the first line of a planned epoch that shows nothing a result is outside the range of its type: 64 bits, the years 0001 to 9999, or a text
    /// of at most 1,048,576 bytes.
    Overflow {
        stream: Text,
        part: u32,
        offset: u64,
    },
    /// No line of a planned epoch that shows nothing is a fault, and on this key, the least such, a result is outside its range. The key is
    /// told as a JSON array of its values.
    KeyOverflow {
        key: Text,
    },
    /// The inputs failed, or a log.
    LogFault,
    /// The disk failed.
    DiskFault,
    /// The output failed.
    OutFault,
    /// The checkpoint is of another query, with this text.
    OtherQuery {
        kept: Text,
    },
    /// The checkpoint has another number of partitions than is asked for.
    OtherPartitions {
        kept: u32,
        asked: u32,
    },
    /// A stream has another number of parts than it had.
    OtherParts {
        stream: Text,
        kept: u32,
        found: u32,
    },
    /// A part has fewer lines than the plans have logged.
    LogShort {
        stream: Text,
        part: u32,
        logged: u64,
        found: u64,
    },
    /// The first file of the checkpoint that is missing, unexpected, malformed, or inconsistent with the files before it; or one of the state that
    /// upkeep reads, and that is missing or malformed.
    Damaged {
        name: Name,
    },
    /// Memory ran out.
    NoMemory,
    /// A stream has more than 64 parts.
    FullParts {
        stream: Text,
    },
    /// A part has more than 1,099,511,627,776 lines.
    FullLines {
        stream: Text,
        part: usize,
        lines: u64,
    },
    /// An epoch is to be planned, and 4,294,967,295 are.
    FullEpochs,
}

impl Stop {
    /// The program's status where it stops so.
    pub fn status(&self) -> u8
        ensures { result ≡ status_of self.now }
    {
        match self {
            Stop::Usage => 2,
            Stop::Refused(_) => 3,
            Stop::BadLine { .. } => 4,
            Stop::Overflow { .. } => 5,
            Stop::KeyOverflow { .. } => 5,
            Stop::LogFault => 6,
            Stop::DiskFault => 7,
            Stop::OutFault => 8,
            Stop::OtherQuery { .. } => 9,
            Stop::OtherPartitions { .. } => 9,
            Stop::OtherParts { .. } => 9,
            Stop::LogShort { .. } => 9,
            Stop::Damaged { .. } => 9,
            Stop::NoMemory => 10,
            Stop::FullParts { .. } => 11,
            Stop::FullLines { .. } => 11,
            Stop::FullEpochs => 11,
        }
    }
}

/// Shown as the line that tells it, without the line's end.
impl fmt::Display for Stop {
    ghost use Rattle.std.specs.Prelude.{Some};
    ghost use Rattle.ssq_run.specs.Lines.{stop_text};

    ghost output = { λ stop. Some (stop_text stop) };

    fn fmt<W: fmt::Write>(&self, f: &mut fmt::Formatter<W>) -> fmt::Result {
        match self {
            Stop::Usage => f.write_str("stopped 2 Usage"),
            Stop::Refused(refusal) => write!(f, "stopped 3 {refusal}"),
            Stop::BadLine {
                stream,
                part,
                offset,
                wrong,
            } => write!(
                f,
                "stopped 4 BadLine {} {part} {offset} {wrong}",
                stream.as_str()
            ),
            Stop::Overflow {
                stream,
                part,
                offset,
            } => write!(f, "stopped 5 Overflow {} {part} {offset}", stream.as_str()),
            Stop::KeyOverflow { key } => write!(f, "stopped 5 Overflow key {}", key.as_str()),
            Stop::LogFault => f.write_str("stopped 6 LogFault"),
            Stop::DiskFault => f.write_str("stopped 7 DiskFault"),
            Stop::OutFault => f.write_str("stopped 8 OutFault"),
            Stop::OtherQuery { kept } => write!(f, "stopped 9 OtherQuery {}", kept.as_str()),
            Stop::OtherPartitions { kept, asked } => {
                write!(f, "stopped 9 OtherPartitions {kept} {asked}")
            }
            Stop::OtherParts {
                stream,
                kept,
                found,
            } => write!(f, "stopped 9 OtherParts {} {kept} {found}", stream.as_str()),
            Stop::LogShort {
                stream,
                part,
                logged,
                found,
            } => write!(
                f,
                "stopped 9 LogShort {} {part} {logged} {found}",
                stream.as_str()
            ),
            Stop::Damaged { name } => write!(f, "stopped 9 Damaged {}", NameText(*name)),
            Stop::NoMemory => f.write_str("stopped 10 NoMemory"),
            Stop::FullParts { stream } => write!(f, "stopped 11 Full parts {} 65", stream.as_str()),
            Stop::FullLines {
                stream,
                part,
                lines,
            } => write!(
                f,
                "stopped 11 Full lines {} {part} {lines}",
                stream.as_str()
            ),
            Stop::FullEpochs => f.write_str("stopped 11 Full epochs"),
        }
    }
}

impl From<AskError> for Stop {
    ghost use Rattle.std.specs.Prelude.{◌≡◌};
    ghost use Rattle.ssq_run.specs.Stopping.{stop_of_ask};

    ghost from_gives = { λ error stop. stop ≡ stop_of_ask error };

    fn from(error: AskError) -> Stop {
        match error {
            AskError::Usage => Stop::Usage,
            AskError::NoMemory => Stop::NoMemory,
        }
    }
}

impl From<InputError> for Stop {
    ghost use Rattle.std.specs.Prelude.{◌≡◌};
    ghost use Rattle.ssq_run.specs.Stopping.{stop_of_input};

    ghost from_gives = { λ error stop. stop ≡ stop_of_input error };

    fn from(error: InputError) -> Stop {
        match error {
            InputError::Fault => Stop::LogFault,
            InputError::NoMemory => Stop::NoMemory,
        }
    }
}

impl From<Refusal> for Stop {
    ghost use Rattle.std.specs.Prelude.{◌≡◌};
    ghost use Rattle.ssq_run.specs.Stopping.{stop_of_refusal};

    ghost from_gives = { λ refusal stop. stop ≡ stop_of_refusal refusal };

    fn from(refusal: Refusal) -> Stop {
        match refusal {
            Refusal::NoMemory => Stop::NoMemory,
            _ => Stop::Refused(refusal),
        }
    }
}

impl From<SinkFault> for Stop {
    ghost use Rattle.std.specs.Prelude.{◌≡◌};
    ghost use Rattle.ssq_run.specs.Stopping.{stop_of_sink};

    ghost from_gives = { λ fault stop. stop ≡ stop_of_sink fault };

    fn from(fault: SinkFault) -> Stop {
        match fault {
            SinkFault::Damaged { name } => Stop::Damaged { name },
            SinkFault::DiskFault => Stop::DiskFault,
            SinkFault::NoMemory => Stop::NoMemory,
        }
    }
}

impl From<OutError> for Stop {
    ghost use Rattle.std.specs.Prelude.{◌≡◌};
    ghost use Rattle.ssq_run.specs.Stopping.{stop_of_output};

    ghost from_gives = { λ error stop. stop ≡ stop_of_output error };

    fn from(error: OutError) -> Stop {
        match error {
            OutError::Fault => Stop::OutFault,
            OutError::NoMemory => Stop::NoMemory,
        }
    }
}

impl From<AllocError> for Stop {
    ghost use Rattle.std.specs.Prelude.{◌≡◌};
    ghost use Rattle.ssq_run.specs.declared.stop.Stop.TheVariants.{NoMemory};

    ghost from_gives = { λ _ stop. stop ≡ NoMemory };

    fn from(_: AllocError) -> Stop {
        Stop::NoMemory
    }
}
