// What each line does.
use crate::runs::play_case;
use case_calls::Run;
use case_fields::case::Case;
use case_fields::parts::NotUnderstood;
use std::io;
use std::io::Write;

// Why what a line says was not done.
pub(crate) enum Fault {
    NotUnderstood,
    Io(io::Error),
}

impl From<NotUnderstood> for Fault {
    fn from(_fault: NotUnderstood) -> Fault {
        Fault::NotUnderstood
    }
}

impl From<io::Error> for Fault {
    fn from(error: io::Error) -> Fault {
        Fault::Io(error)
    }
}

// Plays lines: its case takes what they give, and what the runs of the case do is written out.
#[derive(Drop)]
pub(crate) struct Player<W> {
    case: Case,
    out: W,
}

impl<W: Write> Player<W> {
    pub(crate) fn new(out: W) -> Player<W> {
        Player {
            case: Case::new(),
            out,
        }
    }

    // Does what the line says, or says that it is not understood.
    pub(crate) fn play(&mut self, line: &[u8]) -> io::Result<()> {
        match self.follow(line) {
            Ok(()) => Ok(()),
            Err(Fault::NotUnderstood) => {
                self.out.write_all(b"? ")?;
                self.repeat(line)
            }
            Err(Fault::Io(error)) => Err(error),
        }
    }

    fn follow(&mut self, line: &[u8]) -> Result<(), Fault> {
        match line {
            [] | [b'#', ..] => Ok(()),
            [b'c', ..] => {
                self.repeat(line)?;
                self.case.clear();
                Ok(())
            }
            [b'p', ..] => self.run(Run::Plain, line),
            [b'g', ..] => self.run(Run::Guarded, line),
            [b't', b'r', ..] => self.run(Run::Traced, line),
            _ => Ok(self.case.read_line(line)?),
        }
    }

    fn run(&mut self, run: Run, line: &[u8]) -> Result<(), Fault> {
        self.repeat(line)?;
        play_case(run, line, &mut self.case, &mut self.out)
    }

    fn repeat(&mut self, line: &[u8]) -> io::Result<()> {
        self.out.write_all(line)?;
        self.out.write_all(b"\n")
    }
}
