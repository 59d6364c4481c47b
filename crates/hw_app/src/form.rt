//! The table of forms of a command.

ghost use Rattle.std.specs.Prelude.{◌≡◌};
ghost use Rattle.hw_app.specs.Forms.{wanted_words};

use crate::wanted::{Keyword, Quantity, Value, Wanted};
use hw_desk::Feed;

/// A form of a command.
#[derive(Clone, Copy)]
pub enum Form {
    /// `solve flat NAME BUDGET PROOF` searches for a best timetable of a flat text, up to BUDGET lemmas.
    SolveFlat,
    /// `solve port INSTANCE TIDES BUDGET PROOF` searches for a best timetable of a port, up to BUDGET lemmas.
    SolvePort,
    /// `prove flat NAME BUDGET PROOF` searches for a best timetable of a flat text with prices, up to BUDGET lemmas.
    ProveFlat,
    /// `prove port INSTANCE TIDES BUDGET PROOF` searches for a best timetable of a port with prices, up to BUDGET lemmas.
    ProvePort,
    /// `prove flat NAME BUDGET PROOF SEED` is the same by another way through the search, which SEED chooses.
    ProveFlatSeed,
    /// `prove port INSTANCE TIDES BUDGET PROOF SEED` is the same by another way through the search, which SEED chooses.
    ProvePortSeed,
    /// `resume flat NAME CERT BUDGET PROOF` goes on from a certificate of a flat text, up to BUDGET new lemmas.
    ResumeFlat,
    /// `resume port INSTANCE TIDES CERT BUDGET PROOF` goes on from a certificate of a port, up to BUDGET new lemmas.
    ResumePort,
    /// `split flat NAME PARTS START SPLIT` makes a split of a flat text, of at most PARTS parts.
    SplitFlat,
    /// `split port INSTANCE TIDES PARTS START SPLIT` makes a split of a port, of at most PARTS parts.
    SplitPort,
    /// `part flat NAME SPLIT NUMBER START BUDGET PROOF` goes on from a certificate of a flat text within a part of a split, up to BUDGET new lemmas.
    PartFlat,
    /// `part port INSTANCE TIDES SPLIT NUMBER START BUDGET PROOF` goes on from a certificate of a port within a part of a split, up to BUDGET new lemmas.
    PartPort,
    /// `join flat NAME SPLIT CERTS PROOF` joins the certificates of the parts of a split of a flat text.
    JoinFlat,
    /// `join port INSTANCE TIDES SPLIT CERTS PROOF` joins the certificates of the parts of a split of a port.
    JoinPort,
    /// `check flat NAME CERT` checks a certificate of a flat text.
    CheckFlat,
    /// `check port INSTANCE TIDES CERT` checks a certificate of a port.
    CheckPort,
    /// `verify flat NAME CERT` checks a certificate of a flat text, which may be of the third version, with its bound.
    VerifyFlat,
    /// `verify port INSTANCE TIDES CERT` checks a certificate of a port, which may be of the third version, with its bound.
    VerifyPort,
    /// `chart flat NAME CERT` draws the plan that a certificate of a flat text shows.
    ChartFlat,
    /// `chart port INSTANCE TIDES CERT` draws the plan that a certificate of a port shows.
    ChartPort,
    /// `chart repair flat NAME PLAN CERT` draws the plan that a certificate of the repair of a flat text's plan shows, against that plan.
    ChartRepairFlat,
    /// `chart repair port INSTANCE TIDES PLAN CERT` draws the plan that a certificate of the repair of a port's plan shows, against that plan.
    ChartRepairPort,
    /// `chart clash port INSTANCE TIDES CLASH CERT` marks in the picture of a port the restrictions of a clash that a certificate shows.
    ChartClashPort,
    /// `table port INSTANCE TIDES CERT` prints the plan that a certificate of a port shows as CSV.
    TablePort,
    /// `table repair port INSTANCE TIDES PLAN CERT` prints the plan that a certificate of the repair of a port's plan shows as CSV.
    TableRepairPort,
    /// `renew flat NAME CERT PROOF` checks a certificate of a flat text and writes it again, with deletions.
    RenewFlat,
    /// `renew port INSTANCE TIDES CERT PROOF` checks a certificate of a port and writes it again, with deletions.
    RenewPort,
    /// `crew flat NAME ORDER BUDGET PROOF` lets searchers take turns on a flat text, in ORDER, up to BUDGET lemmas.
    CrewFlat,
    /// `crew port INSTANCE TIDES ORDER BUDGET PROOF` lets searchers take turns on a port, in ORDER, up to BUDGET lemmas.
    CrewPort,
    /// `repair flat NAME PLAN BUDGET PROOF` searches for a best repair of a plan of a flat text, up to BUDGET lemmas.
    RepairFlat,
    /// `repair port INSTANCE TIDES PLAN BUDGET PROOF` searches for a best repair of a plan of a port, up to BUDGET lemmas.
    RepairPort,
    /// `prove repair flat NAME PLAN BUDGET PROOF` searches for a best repair of a plan of a flat text with prices, up to BUDGET lemmas.
    ProveRepairFlat,
    /// `prove repair port INSTANCE TIDES PLAN BUDGET PROOF` searches for a best repair of a plan of a port with prices, up to BUDGET lemmas.
    ProveRepairPort,
    /// `prove repair flat NAME PLAN BUDGET PROOF SEED` is the same by another way through the search, which SEED chooses.
    ProveRepairFlatSeed,
    /// `prove repair port INSTANCE TIDES PLAN BUDGET PROOF SEED` is the same by another way through the search, which SEED chooses.
    ProveRepairPortSeed,
    /// `check repair NAME PLAN CERT` checks a certificate of the repair of a plan.
    CheckRepair,
    /// `check repair port INSTANCE TIDES PLAN CERT` checks a certificate of the repair of a port's plan.
    CheckRepairPort,
    /// `verify repair flat NAME PLAN CERT` checks a certificate of the repair of a plan, which may be of the third version, with its bound.
    VerifyRepairFlat,
    /// `verify repair port INSTANCE TIDES PLAN CERT` checks a certificate of the repair of a port's plan, which may be of the third version, with its bound.
    VerifyRepairPort,
    /// `explain repair flat NAME PLAN CERT` tells what a certificate's repair makes of each ship of a plan.
    ExplainRepairFlat,
    /// `explain repair port INSTANCE TIDES PLAN CERT` tells what a certificate's repair makes of each ship of a port's plan.
    ExplainRepairPort,
    /// `clash flat NAME BUDGET PROOF` searches for the restrictions of a flat text that can't be met together, up to BUDGET lemmas a step.
    ClashFlat,
    /// `clash port INSTANCE TIDES BUDGET PROOF` searches for the restrictions of a port that can't be met together, up to BUDGET lemmas a step.
    ClashPort,
    /// `clash repair flat NAME PLAN BUDGET PROOF` searches for the restrictions of a flat text and the wishes of a plan that can't be met together, up to BUDGET lemmas a step.
    ClashRepairFlat,
    /// `clash repair port INSTANCE TIDES PLAN BUDGET PROOF` searches for the restrictions of a port and the wishes of a plan that can't be met together, up to BUDGET lemmas a step.
    ClashRepairPort,
    /// `check clash NAME PLAN CERT` checks a clash of a flat text, with its certificate.
    CheckClash,
    /// `check clash port INSTANCE TIDES PLAN CERT` checks a clash of a port, with its certificate.
    CheckClashPort,
    /// `check clash repair flat NAME PLAN CLASH CERT` checks a clash of the repair of a flat text's plan, with its certificate.
    CheckClashRepairFlat,
    /// `check clash repair port INSTANCE TIDES PLAN CLASH CERT` checks a clash of the repair of a port's plan, with its certificate.
    CheckClashRepairPort,
    /// `explain port INSTANCE TIDES` tells each restriction of a port in the port's own words.
    ExplainPort,
    /// `windows port INSTANCE TIDES` tells when each ship of a port may sail, and why not.
    WindowsPort,
    /// `lint INSTANCE TIDES` tells why an instance or a tide table is refused, or what in them is likely meant otherwise.
    Lint,
    /// `model flat NAME` writes a flat text as a linear programme in the LP format.
    ModelFlat,
    /// `model port INSTANCE TIDES` writes a port as a linear programme in the LP format.
    ModelPort,
    /// `opb flat NAME` writes a flat text as a linear programme in the OPB format.
    OpbFlat,
    /// `opb port INSTANCE TIDES` writes a port as a linear programme in the OPB format.
    OpbPort,
    /// `audit port INSTANCE TIDES PLAN EVENTS` watches a timetable of a port through events.
    AuditPort,
    /// `carry port INSTANCE TIDES PLAN EVENTS` writes the plan of a repair that a timetable and the events so far give.
    CarryPort,
    /// `flatten INSTANCE TIDES` writes the flat text of a port.
    Flatten,
    /// `demo NUMBER SHIPS SLOTS BUDGET PROOF` draws a problem, solves it and checks its certificate.
    Demo,
}

/// The forms that there are.
pub const FORMS: [Form; 60] = [
    Form::SolveFlat,
    Form::SolvePort,
    Form::ProveFlat,
    Form::ProvePort,
    Form::ProveFlatSeed,
    Form::ProvePortSeed,
    Form::ResumeFlat,
    Form::ResumePort,
    Form::SplitFlat,
    Form::SplitPort,
    Form::PartFlat,
    Form::PartPort,
    Form::JoinFlat,
    Form::JoinPort,
    Form::CheckFlat,
    Form::CheckPort,
    Form::VerifyFlat,
    Form::VerifyPort,
    Form::ChartFlat,
    Form::ChartPort,
    Form::ChartRepairFlat,
    Form::ChartRepairPort,
    Form::ChartClashPort,
    Form::TablePort,
    Form::TableRepairPort,
    Form::RenewFlat,
    Form::RenewPort,
    Form::CrewFlat,
    Form::CrewPort,
    Form::RepairFlat,
    Form::RepairPort,
    Form::ProveRepairFlat,
    Form::ProveRepairPort,
    Form::ProveRepairFlatSeed,
    Form::ProveRepairPortSeed,
    Form::CheckRepair,
    Form::CheckRepairPort,
    Form::VerifyRepairFlat,
    Form::VerifyRepairPort,
    Form::ExplainRepairFlat,
    Form::ExplainRepairPort,
    Form::ClashFlat,
    Form::ClashPort,
    Form::ClashRepairFlat,
    Form::ClashRepairPort,
    Form::CheckClash,
    Form::CheckClashPort,
    Form::CheckClashRepairFlat,
    Form::CheckClashRepairPort,
    Form::ExplainPort,
    Form::WindowsPort,
    Form::Lint,
    Form::ModelFlat,
    Form::ModelPort,
    Form::OpbFlat,
    Form::OpbPort,
    Form::AuditPort,
    Form::CarryPort,
    Form::Flatten,
    Form::Demo,
];

pub const SOLVE: Wanted = Wanted::Keyword(Keyword::Solve);

pub const PROVE: Wanted = Wanted::Keyword(Keyword::Prove);

pub const RESUME: Wanted = Wanted::Keyword(Keyword::Resume);

pub const SPLITS: Wanted = Wanted::Keyword(Keyword::Split);

pub const PART: Wanted = Wanted::Keyword(Keyword::Part);

pub const JOIN: Wanted = Wanted::Keyword(Keyword::Join);

pub const CHECK: Wanted = Wanted::Keyword(Keyword::Check);

pub const VERIFY: Wanted = Wanted::Keyword(Keyword::Verify);

pub const CHART: Wanted = Wanted::Keyword(Keyword::Chart);

pub const TABLE: Wanted = Wanted::Keyword(Keyword::Table);

pub const RENEW: Wanted = Wanted::Keyword(Keyword::Renew);

pub const CREW: Wanted = Wanted::Keyword(Keyword::Crew);

pub const REPAIR: Wanted = Wanted::Keyword(Keyword::Repair);

pub const CLASH: Wanted = Wanted::Keyword(Keyword::Clash);

pub const EXPLAIN: Wanted = Wanted::Keyword(Keyword::Explain);

pub const WINDOWS: Wanted = Wanted::Keyword(Keyword::Windows);

pub const LINT: Wanted = Wanted::Keyword(Keyword::Lint);

pub const MODEL: Wanted = Wanted::Keyword(Keyword::Model);

pub const OPB: Wanted = Wanted::Keyword(Keyword::Opb);

pub const AUDIT: Wanted = Wanted::Keyword(Keyword::Audit);

pub const CARRY: Wanted = Wanted::Keyword(Keyword::Carry);

const FLAT: Wanted = Wanted::Keyword(Keyword::Flat);

const PORT: Wanted = Wanted::Keyword(Keyword::Port);

pub const FLATTEN: Wanted = Wanted::Keyword(Keyword::Flatten);

const DEMO: Wanted = Wanted::Keyword(Keyword::Demo);

const NAME: Wanted = Wanted::Value(Value::Input(Feed::Flat));

const INSTANCE: Wanted = Wanted::Value(Value::Input(Feed::Instance));

const TIDES: Wanted = Wanted::Value(Value::Input(Feed::Tides));

const CERT: Wanted = Wanted::Value(Value::Input(Feed::Certificate));

const SPLIT: Wanted = Wanted::Value(Value::Input(Feed::Split));

const START: Wanted = Wanted::Value(Value::Start);

const SPLIT_MADE: Wanted = Wanted::Value(Value::SplitMade);

const CERTS: Wanted = Wanted::Value(Value::Certificates);

const PLAN: Wanted = Wanted::Value(Value::Input(Feed::Plan));

const CLASH_TEXT: Wanted = Wanted::Value(Value::Input(Feed::Clash));

const EVENTS: Wanted = Wanted::Value(Value::Input(Feed::Events));

const PROOF: Wanted = Wanted::Value(Value::Proof);

const ORDER: Wanted = Wanted::Value(Value::Order);

const NUMBER: Wanted = Wanted::Value(Value::Number(Quantity::Demonstration));

const SHIPS: Wanted = Wanted::Value(Value::Number(Quantity::Ships));

const SLOTS: Wanted = Wanted::Value(Value::Number(Quantity::Slots));

const BUDGET: Wanted = Wanted::Value(Value::Number(Quantity::Budget));

const SEED: Wanted = Wanted::Value(Value::Number(Quantity::Seed));

const PARTS: Wanted = Wanted::Value(Value::Number(Quantity::Parts));

const PART_NUMBER: Wanted = Wanted::Value(Value::Number(Quantity::Part));

/// What the words of a form have to be.
pub fn words_of(form: Form) -> &'static [Wanted]
    ensures { result.now ≡ wanted_words form }
{
    match form {
        Form::SolveFlat => &[SOLVE, FLAT, NAME, BUDGET, PROOF],
        Form::SolvePort => &[SOLVE, PORT, INSTANCE, TIDES, BUDGET, PROOF],
        Form::ProveFlat => &[PROVE, FLAT, NAME, BUDGET, PROOF],
        Form::ProvePort => &[PROVE, PORT, INSTANCE, TIDES, BUDGET, PROOF],
        Form::ProveFlatSeed => &[PROVE, FLAT, NAME, BUDGET, PROOF, SEED],
        Form::ProvePortSeed => &[PROVE, PORT, INSTANCE, TIDES, BUDGET, PROOF, SEED],
        Form::ResumeFlat => &[RESUME, FLAT, NAME, CERT, BUDGET, PROOF],
        Form::ResumePort => &[RESUME, PORT, INSTANCE, TIDES, CERT, BUDGET, PROOF],
        Form::SplitFlat => &[SPLITS, FLAT, NAME, PARTS, START, SPLIT_MADE],
        Form::SplitPort => &[SPLITS, PORT, INSTANCE, TIDES, PARTS, START, SPLIT_MADE],
        Form::PartFlat => &[PART, FLAT, NAME, SPLIT, PART_NUMBER, START, BUDGET, PROOF],
        Form::PartPort => &[
            PART,
            PORT,
            INSTANCE,
            TIDES,
            SPLIT,
            PART_NUMBER,
            START,
            BUDGET,
            PROOF,
        ],
        Form::JoinFlat => &[JOIN, FLAT, NAME, SPLIT, CERTS, PROOF],
        Form::JoinPort => &[JOIN, PORT, INSTANCE, TIDES, SPLIT, CERTS, PROOF],
        Form::CheckFlat => &[CHECK, FLAT, NAME, CERT],
        Form::CheckPort => &[CHECK, PORT, INSTANCE, TIDES, CERT],
        Form::VerifyFlat => &[VERIFY, FLAT, NAME, CERT],
        Form::VerifyPort => &[VERIFY, PORT, INSTANCE, TIDES, CERT],
        Form::ChartFlat => &[CHART, FLAT, NAME, CERT],
        Form::ChartPort => &[CHART, PORT, INSTANCE, TIDES, CERT],
        Form::ChartRepairFlat => &[CHART, REPAIR, FLAT, NAME, PLAN, CERT],
        Form::ChartRepairPort => &[CHART, REPAIR, PORT, INSTANCE, TIDES, PLAN, CERT],
        Form::ChartClashPort => &[CHART, CLASH, PORT, INSTANCE, TIDES, CLASH_TEXT, CERT],
        Form::TablePort => &[TABLE, PORT, INSTANCE, TIDES, CERT],
        Form::TableRepairPort => &[TABLE, REPAIR, PORT, INSTANCE, TIDES, PLAN, CERT],
        Form::RenewFlat => &[RENEW, FLAT, NAME, CERT, PROOF],
        Form::RenewPort => &[RENEW, PORT, INSTANCE, TIDES, CERT, PROOF],
        Form::CrewFlat => &[CREW, FLAT, NAME, ORDER, BUDGET, PROOF],
        Form::CrewPort => &[CREW, PORT, INSTANCE, TIDES, ORDER, BUDGET, PROOF],
        Form::RepairFlat => &[REPAIR, FLAT, NAME, PLAN, BUDGET, PROOF],
        Form::RepairPort => &[REPAIR, PORT, INSTANCE, TIDES, PLAN, BUDGET, PROOF],
        Form::ProveRepairFlat => &[PROVE, REPAIR, FLAT, NAME, PLAN, BUDGET, PROOF],
        Form::ProveRepairPort => &[PROVE, REPAIR, PORT, INSTANCE, TIDES, PLAN, BUDGET, PROOF],
        Form::ProveRepairFlatSeed => &[PROVE, REPAIR, FLAT, NAME, PLAN, BUDGET, PROOF, SEED],
        Form::ProveRepairPortSeed => {
            &[
                PROVE, REPAIR, PORT, INSTANCE, TIDES, PLAN, BUDGET, PROOF, SEED,
            ]
        }
        Form::CheckRepair => &[CHECK, REPAIR, NAME, PLAN, CERT],
        Form::CheckRepairPort => &[CHECK, REPAIR, PORT, INSTANCE, TIDES, PLAN, CERT],
        Form::VerifyRepairFlat => &[VERIFY, REPAIR, FLAT, NAME, PLAN, CERT],
        Form::VerifyRepairPort => &[VERIFY, REPAIR, PORT, INSTANCE, TIDES, PLAN, CERT],
        Form::ExplainRepairFlat => &[EXPLAIN, REPAIR, FLAT, NAME, PLAN, CERT],
        Form::ExplainRepairPort => &[EXPLAIN, REPAIR, PORT, INSTANCE, TIDES, PLAN, CERT],
        Form::ClashFlat => &[CLASH, FLAT, NAME, BUDGET, PROOF],
        Form::ClashPort => &[CLASH, PORT, INSTANCE, TIDES, BUDGET, PROOF],
        Form::ClashRepairFlat => &[CLASH, REPAIR, FLAT, NAME, PLAN, BUDGET, PROOF],
        Form::ClashRepairPort => &[CLASH, REPAIR, PORT, INSTANCE, TIDES, PLAN, BUDGET, PROOF],
        Form::CheckClash => &[CHECK, CLASH, NAME, PLAN, CERT],
        Form::CheckClashPort => &[CHECK, CLASH, PORT, INSTANCE, TIDES, PLAN, CERT],
        Form::CheckClashRepairFlat => &[CHECK, CLASH, REPAIR, FLAT, NAME, PLAN, CLASH_TEXT, CERT],
        Form::CheckClashRepairPort => &[
            CHECK, CLASH, REPAIR, PORT, INSTANCE, TIDES, PLAN, CLASH_TEXT, CERT,
        ],
        Form::ExplainPort => &[EXPLAIN, PORT, INSTANCE, TIDES],
        Form::WindowsPort => &[WINDOWS, PORT, INSTANCE, TIDES],
        Form::Lint => &[LINT, INSTANCE, TIDES],
        Form::ModelFlat => &[MODEL, FLAT, NAME],
        Form::ModelPort => &[MODEL, PORT, INSTANCE, TIDES],
        Form::OpbFlat => &[OPB, FLAT, NAME],
        Form::OpbPort => &[OPB, PORT, INSTANCE, TIDES],
        Form::AuditPort => &[AUDIT, PORT, INSTANCE, TIDES, PLAN, EVENTS],
        Form::CarryPort => &[CARRY, PORT, INSTANCE, TIDES, PLAN, EVENTS],
        Form::Flatten => &[FLATTEN, INSTANCE, TIDES],
        Form::Demo => &[DEMO, NUMBER, SHIPS, SLOTS, BUDGET, PROOF],
    }
}
