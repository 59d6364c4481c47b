//! What the desk of a case holds, how it works, and runs over such desks.

ghost use Rattle.std.specs.Prelude.{◌≡◌, ◌∷◌, [], codes, IfOk};
ghost use Rattle.hw_desk.specs.State.{IsNewDesk};
ghost use Rattle.hw_desk.specs.Memory.{memory_state};

use crate::outcome::Outcome;
use crate::runner::Runner;
use crate::runs::Runs;
use crate::shown::put_bytes;
use hw_desk::{CalmDesk, DeskCall, FailAt, MemoryDesk, NamedBytes, NoMemory};
use hw_lexicon::{Lexicon, each_word};
use hw_text::read_small;
use std::alloc::{AllocError, Global};

/// How many places are tried at most.
const MOST_PLACES: u32 = 1000;

/// The desk of a case.
#[derive(Drop)]
pub struct Setup {
    files: Vec<NamedBytes>,
    most: Vec<u32>,
    room: u32,
    fails: Vec<FailAt>,
    each: Option<DeskCall>,
    calm: bool,
    /// How many lines of a report are printed at most, where Proof isn't.
    brief: Option<u32>,
    /// What the last run sent to Proof, under its last word.
    proof: Option<NamedBytes>,
}

fn keywords() -> Lexicon<'static>
    ensures { result ≡ codes "file" ∷ codes "most" ∷ codes "room" ∷ codes "fail" ∷ codes "each" ∷ codes "calm" ∷ codes "brief" ∷ [] }
{
    Lexicon::new(b"file most room fail each calm brief")
}

fn calls() -> Lexicon<'static>
    ensures { result ≡ codes "begin" ∷ codes "read" ∷ codes "make" ∷ codes "report" ∷ codes "proof" ∷ [] }
{
    Lexicon::new(b"begin read make report proof")
}

fn call_of(word: &str) -> Option<DeskCall> {
    each_word!(calls().find(word.as_bytes());
        0 => Some(DeskCall::Begin),
        1 => Some(DeskCall::Read),
        2 => Some(DeskCall::Make),
        3 => Some(DeskCall::WriteReport),
        4 => Some(DeskCall::WriteProof),
        else None
    )
}

fn fail_of(text: &str) -> Option<FailAt> {
    let (call, place) = text.split_once(' ')?;
    let call = call_of(call)?;
    let place = read_small(place.as_bytes(), 1, u32::MAX)?;
    Some(FailAt { call, place })
}

fn copied(alloc: Global, files: &[NamedBytes]) -> Result<Vec<NamedBytes>, AllocError> {
    let mut copy = Vec::new(alloc);
    for file in files {
        copy.push(NamedBytes {
            name: String::from_str(alloc, file.name.as_str())?,
            bytes: Vec::from_slice(alloc, &file.bytes)?,
        })?;
    }
    Ok(copy)
}

/// The words of a text, one space between two; none where there is no text.
fn words_in(alloc: Global, text: Option<&str>) -> Result<Vec<String>, AllocError> {
    let mut words = Vec::new(alloc);
    if let Some(text) = text {
        for word in text.split(' ') {
            words.push(String::from_str(alloc, word)?)?;
        }
    }
    Ok(words)
}

fn all_fails(
    alloc: Global,
    fails: &[FailAt],
    fail: Option<FailAt>,
) -> Result<Vec<FailAt>, AllocError> {
    let mut all = Vec::from_slice(alloc, fails)?;
    if let Some(fail) = fail {
        all.push(fail)?;
    }
    Ok(all)
}

fn new_memory(
    alloc: Global,
    files: Vec<NamedBytes>,
    most: u32,
    room: u32,
    fails: Vec<FailAt>,
) -> Result<MemoryDesk, NoMemory>
    ensures { IfOk result (λ desk. IsNewDesk (memory_state desk)) }
{
    MemoryDesk::new(alloc, files, most.max(1), room, fails)
}

impl Setup {
    /// A desk that holds nothing.
    pub fn new(alloc: Global) -> Setup {
        Setup {
            files: Vec::new(alloc),
            most: Vec::new(alloc),
            room: 65_536,
            fails: Vec::new(alloc),
            each: None,
            calm: false,
            brief: None,
            proof: None,
        }
    }

    /// Takes a line on the desk, and says whether it has a form.
    pub fn take(&mut self, alloc: Global, line: &str) -> Result<bool, AllocError> {
        match line.as_bytes() {
            [b'|', text @ ..] => self.put_many(text, b"\n", 1),
            [b'+', text @ ..] => self.put_many(text, b"", 1),
            [b'*', ..] => self.put_repeated(line, '*', b"\n"),
            [b'-', ..] => self.put_repeated(line, '-', b""),
            _ => self.take_keyword(alloc, line),
        }
    }

    fn take_keyword(&mut self, alloc: Global, line: &str) -> Result<bool, AllocError> {
        let (key, text) = match line.split_once(' ') {
            Some((key, text)) => (key, Some(text)),
            None => (line, None),
        };
        each_word!(keywords().find(key.as_bytes());
            0 => self.add_file(alloc, text),
            1 => self.set_most(text),
            2 => Ok(self.set_room(text)),
            3 => self.add_fail(text),
            4 => Ok(self.set_each(text)),
            5 => Ok(self.set_calm(text)),
            6 => Ok(self.set_brief(text)),
            else Ok(false)
        )
    }

    fn add_file(&mut self, alloc: Global, text: Option<&str>) -> Result<bool, AllocError> {
        let Some(name) = text else {
            return Ok(false);
        };
        self.files.push(NamedBytes {
            name: String::from_str(alloc, name)?,
            bytes: Vec::new(alloc),
        })?;
        Ok(true)
    }

    /// Adds bytes with an end to the last file, this many times.
    fn put_many(&mut self, text: &[u8], end: &[u8], count: u32) -> Result<bool, AllocError> {
        let Some(file) = self.files.last_mut() else {
            return Ok(false);
        };
        for _ in 0..count {
            if !put_bytes(&mut file.bytes, text)? {
                return Ok(false);
            }
            file.bytes.extend_from_slice(end)?;
        }
        Ok(true)
    }

    /// A mark, `COUNT TEXT`
    fn put_repeated(&mut self, line: &str, mark: char, end: &[u8]) -> Result<bool, AllocError> {
        let Some((count, text)) = line.split_once(' ') else {
            return Ok(false);
        };
        let Some(count) = count.strip_prefix(mark) else {
            return Ok(false);
        };
        match read_small(count.as_bytes(), 1, 100_000) {
            Some(count) => self.put_many(text.as_bytes(), end, count),
            None => Ok(false),
        }
    }

    fn set_most(&mut self, text: Option<&str>) -> Result<bool, AllocError> {
        self.most.clear();
        let Some(text) = text else {
            return Ok(false);
        };
        for word in text.split(' ') {
            let Some(most) = read_small(word.as_bytes(), 1, u32::MAX) else {
                return Ok(false);
            };
            self.most.push(most)?;
        }
        Ok(true)
    }

    fn set_room(&mut self, text: Option<&str>) -> bool {
        match text.and_then(|text| read_small(text.as_bytes(), 0, 1 << 27)) {
            Some(room) => {
                self.room = room;
                true
            }
            None => false,
        }
    }

    fn add_fail(&mut self, text: Option<&str>) -> Result<bool, AllocError> {
        match text.and_then(|text| fail_of(text)) {
            Some(fail) => {
                self.fails.push(fail)?;
                Ok(true)
            }
            None => Ok(false),
        }
    }

    fn set_each(&mut self, text: Option<&str>) -> bool {
        self.each = text.and_then(|text| call_of(text));
        self.each.is_some()
    }

    fn set_calm(&mut self, text: Option<&str>) -> bool {
        self.calm = text.is_none();
        self.calm
    }

    fn set_brief(&mut self, text: Option<&str>) -> bool {
        self.brief = match text {
            None => Some(u32::MAX),
            Some(text) => read_small(text.as_bytes(), 1, u32::MAX),
        };
        self.brief.is_some()
    }

    /// Adds what the last run sent to Proof to the files of the desk, and says whether there was one.
    pub fn keep_proof(&mut self) -> Result<bool, AllocError> {
        match self.proof.take() {
            Some(proof) => {
                self.files.push(proof)?;
                Ok(true)
            }
            None => Ok(false),
        }
    }

    /// Runs the words for each number of bytes at once, and appends the outcomes of the runs.
    pub fn run_all<R: Runner>(
        &mut self,
        alloc: Global,
        text: Option<&str>,
        out: &mut Vec<u8>,
    ) -> Result<(), NoMemory> {
        let words = words_in(alloc, text)?;
        let mut runs = Runs::new(self.each.is_some() || self.most.len() > 1, self.brief);
        if self.most.is_empty() {
            self.run_most::<R>(alloc, &words, 4096, &mut runs, out)?;
        }
        for most in &self.most {
            self.run_most::<R>(alloc, &words, *most, &mut runs, out)?;
        }
        runs.put(out)?;
        self.proof = runs.into_proof(alloc, words.last().map(|word| word.as_str()))?;
        Ok(())
    }

    /// Runs the words once, or with a call of the kind failing at each place in turn.
    fn run_most<R: Runner>(
        &self,
        alloc: Global,
        words: &[String],
        most: u32,
        runs: &mut Runs,
        out: &mut Vec<u8>,
    ) -> Result<(), NoMemory> {
        let whole = self.ran::<R>(alloc, words, most, None)?;
        let Some(call) = self.each else {
            runs.add(whole, out)?;
            return Ok(());
        };
        for place in 1..=MOST_PLACES {
            let outcome = self.ran::<R>(alloc, words, most, Some(FailAt { call, place }))?;
            let last = outcome.is_same(&whole, self.brief.is_some());
            runs.add(outcome, out)?;
            if last {
                return Ok(());
            }
        }
        Ok(())
    }

    /// Runs the words over a new desk.
    fn ran<R: Runner>(
        &self,
        alloc: Global,
        words: &[String],
        most: u32,
        fail: Option<FailAt>,
    ) -> Result<Outcome, NoMemory> {
        if self.calm {
            self.over_calm::<R>(alloc, words)
        } else {
            self.over_memory::<R>(alloc, words, most, fail)
        }
    }

    fn over_calm<R: Runner>(&self, alloc: Global, words: &[String]) -> Result<Outcome, NoMemory> {
        let files = copied(alloc, &self.files)?;
        let mut desk = CalmDesk::new(alloc, files)?;
        let code = R::run_calm(alloc, words, &mut desk);
        Ok(Outcome::of_calm(alloc, code, &desk)?)
    }

    fn over_memory<R: Runner>(
        &self,
        alloc: Global,
        words: &[String],
        most: u32,
        fail: Option<FailAt>,
    ) -> Result<Outcome, NoMemory> {
        let files = copied(alloc, &self.files)?;
        let fails = all_fails(alloc, &self.fails, fail)?;
        let mut desk = new_memory(alloc, files, most, self.room, fails)?;
        let code = R::run(alloc, words, &mut desk);
        Ok(Outcome::of_memory(alloc, code, &desk)?)
    }
}
