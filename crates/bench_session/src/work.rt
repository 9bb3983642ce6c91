// The work of the bench: a line is given to name 1, and statements are carried out.
use crate::stop::Stop;
use session::entry::Entry;
use session::refusal::Refusal;
use session::session::Session;
use stores::store::Store;
use symbols::log::LogChars;
use symbols::log_char::LogChar;
use tables::sheet::Tables;

// How many statements are carried out at most; one entry more is recorded, for the line that is given.
pub const STEPS: usize = 1000;

const TRIALS: usize = 1_000_000;

// How many entries were recorded, and why the work stopped.
#[derive(Clone, Copy)]
pub struct Outcome {
    pub recorded: usize,
    pub stop: Stop,
}

pub fn work<S: Store<Symbol = LogChar>>(
    session: &mut Session<LogChars, S>,
    tables: Tables<LogChar>,
    line: &[LogChar],
    entries: &mut [Entry],
    string: &mut [LogChar],
    constants: &mut [LogChar],
    contents: &mut [LogChar],
) -> Result<Outcome, Refusal> {
    session.give(1, line, entries)?;
    for steps in 0..=STEPS {
        if let Err(refusal) = session.step(tables, TRIALS, entries, string, constants, contents) {
            return Ok(Outcome {
                recorded: steps + 1,
                stop: Stop::at_step(refusal, steps),
            });
        }
    }
    Ok(Outcome {
        recorded: STEPS + 2,
        stop: Stop::StepsUsed,
    })
}
