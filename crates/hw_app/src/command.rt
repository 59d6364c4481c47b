//! A command, with its names and numbers.

use hw_command::PortNames;
use hw_command_search::{Draw, Search};
use hw_command_split::{PartWords, SplitWords};
use hw_flat_programme::Format;
use hw_subject::{Source, Subject};

/// What a run is to do. The names are those of a desk's feeds and of Proof, and a budget is in lemmas.
#[derive(Clone, Copy)]
pub enum Command<'w> {
    Search {
        subject: Subject<'w>,
        how: Search,
        budget: u32,
        proof: &'w str,
    },
    Resume {
        subject: Subject<'w>,
        cert: &'w str,
        budget: u32,
        proof: &'w str,
    },
    Split {
        subject: Subject<'w>,
        words: SplitWords<'w>,
        parts: u32,
    },
    Part {
        subject: Subject<'w>,
        words: PartWords<'w>,
        budget: u32,
    },
    Join {
        subject: Subject<'w>,
        split: &'w str,
        certs: &'w str,
        proof: &'w str,
    },
    Check {
        subject: Subject<'w>,
        cert: &'w str,
    },
    Verify {
        subject: Subject<'w>,
        cert: &'w str,
    },
    Renew {
        subject: Subject<'w>,
        cert: &'w str,
        proof: &'w str,
    },
    Chart {
        subject: Subject<'w>,
        cert: &'w str,
    },
    ChartClash {
        port: PortNames<'w>,
        clash: &'w str,
        cert: &'w str,
    },
    Table {
        subject: Subject<'w>,
        cert: &'w str,
    },
    ExplainRepair {
        source: Source<'w>,
        plan: &'w str,
        cert: &'w str,
    },
    Clash {
        subject: Subject<'w>,
        budget: u32,
        proof: &'w str,
    },
    CheckClash {
        subject: Subject<'w>,
        clash: &'w str,
        cert: &'w str,
    },
    Explain {
        port: PortNames<'w>,
    },
    Windows {
        port: PortNames<'w>,
    },
    Lint {
        port: PortNames<'w>,
    },
    Model {
        source: Source<'w>,
        format: Format,
    },
    Audit {
        port: PortNames<'w>,
        plan: &'w str,
        events: &'w str,
    },
    Carry {
        port: PortNames<'w>,
        plan: &'w str,
        events: &'w str,
    },
    Flatten {
        port: PortNames<'w>,
    },
    Demo {
        draw: Draw,
        budget: u32,
        proof: &'w str,
    },
}
