//! Small problems, drawn by number: ships that may stay, values with gaps, pairs with several holes,
//! precedences both ways, and several rules on tugs, some of fleets by the hour.

ghost use Rattle.std.specs.Prelude.{◌<◌, ◌≤◌};

use hw_flat::Flat;
use hw_text::put_number;
use rand_pcg::Lcg64Xsh32;
use rand_pcg::rand_core::utils::NextWord;
use std::alloc::{AllocError, Global};
use std::test::Fail;

/// The first number of the problems with a fleet by the hour.
pub const BY_THE_HOUR: u32 = 1_000;

/// The text of a problem, as far as it is drawn.
#[derive(Drop)]
struct Draft {
    words: Lcg64Xsh32,
    text: Vec<u8>,
}

impl Draft {
    fn draw(&mut self, n: u32) -> u32
        requires some { 0 < n }
        ensures below { result < n }
    {
        self.words.next_word() % n
    }

    fn put(&mut self, text: &[u8]) -> Result<(), AllocError> {
        self.text.extend_from_slice(text)
    }

    /// Appends a number after some text.
    fn number(&mut self, before: &[u8], number: u32) -> Result<(), AllocError> {
        self.put(before)?;
        put_number(&mut self.text, u64::from(number))
    }

    /// A value of at most 100 units, or none: the more, the further a slot is from the ends.
    fn value(&mut self, inward: u32, unit: u64) -> Result<(), AllocError> {
        if self.draw(12) == 0 {
            return self.put(b" -");
        }
        let value = 22 * inward.min(4) + self.draw(13);
        self.put(b" ")?;
        put_number(&mut self.text, u64::from(value).saturating_mul(unit))
    }

    /// A ship's values, and whether it may stay.
    fn row(&mut self, slots: u32, stay: bool, unit: u64) -> Result<(), AllocError> {
        self.put(b"v")?;
        for slot in 0..slots {
            self.value(slot.min(slots - 1 - slot), unit)?;
        }
        if stay {
            let word: &[u8] = if self.draw(2) == 0 { b" y" } else { b" n" };
            self.put(word)?;
        }
        self.put(b"\n")
    }

    /// A hole after 0, before it, or about it.
    fn hole(&mut self) -> Result<(), AllocError> {
        let near = 1 + self.draw(2);
        let width = self.draw(3);
        match self.draw(6) {
            0 => {
                self.number(b" ", near)?;
                self.number(b":", near + width)
            }
            1 => {
                self.number(b" -", near + width)?;
                self.number(b":-", near)
            }
            _ => {
                self.number(b" -", near)?;
                self.number(b":", width)
            }
        }
    }

    fn pair(&mut self, v: u32, w: u32) -> Result<(), AllocError> {
        self.number(b"p ", v)?;
        self.number(b" ", w)?;
        for _hole in 0..1 + self.draw(2) {
            self.hole()?;
        }
        self.put(b"\n")
    }

    fn precedence(&mut self, v: u32, w: u32) -> Result<(), AllocError> {
        self.number(b"s ", v)?;
        self.number(b" ", w)?;
        let gap = self.draw(4);
        self.number(b" ", gap)?;
        self.put(b"\n")
    }

    /// Rules of two ships: mostly a pair, now and then a precedence one way or the other.
    fn two_ships(&mut self, v: u32, w: u32) -> Result<(), AllocError> {
        match self.draw(12) {
            0 => self.precedence(v, w),
            1 => self.precedence(w, v),
            2 => {
                self.pair(v, w)?;
                self.pair(v, w)
            }
            _ => self.pair(v, w),
        }
    }

    fn all_pairs(&mut self, ships: u32) -> Result<(), AllocError> {
        for w in 1..ships {
            for v in 0..w {
                self.two_ships(v, w)?;
            }
        }
        Ok(())
    }

    fn job(&mut self, ship: u32) -> Result<(), AllocError> {
        self.number(b" ", ship)?;
        let tugs = 1 + self.draw(2);
        self.number(b":", tugs)?;
        let hold = 1 + self.draw(3);
        self.number(b":", hold)
    }

    /// A rule on the tugs of the first ship and of most others.
    fn tugs(&mut self, ships: u32) -> Result<(), AllocError> {
        let fleet = 2 + self.draw(5);
        self.number(b"u ", fleet)?;
        self.jobs(ships)
    }

    /// The same of a fleet by the hour.
    fn hours(&mut self, ships: u32, slots: u32) -> Result<(), AllocError>
        requires some { 1 < slots }
    {
        let fleet = 1 + self.draw(5);
        self.number(b"h ", fleet)?;
        let first = 1 + self.draw(slots - 1);
        for slot in first..slots {
            if slot == first || self.draw(3) == 0 {
                self.number(b" ", slot)?;
                let fleet = 1 + self.draw(5);
                self.number(b":", fleet)?;
            }
        }
        self.jobs(ships)
    }

    fn jobs(&mut self, ships: u32) -> Result<(), AllocError> {
        self.job(0)?;
        for ship in 1..ships {
            if self.draw(4) != 0 {
                self.job(ship)?;
            }
        }
        self.put(b"\n")
    }

    /// A problem of four or five ships in eight or nine slots, and now and then in four, with a fleet by the
    /// hour or none.
    fn problem(&mut self, unit: u64, by_the_hour: bool) -> Result<(), AllocError> {
        let stay = self.draw(3) == 0;
        let ships = 4 + self.draw(2);
        let slots = if self.draw(10) == 0 {
            4
        } else {
            8 + self.draw(2)
        };
        self.put(header(stay, by_the_hour))?;
        self.number(b"size ", ships)?;
        self.number(b" ", slots)?;
        self.put(b"\n")?;
        for _ship in 0..ships {
            self.row(slots, stay, unit)?;
        }
        self.all_pairs(ships)?;
        for _rule in 0..self.draw(3) {
            self.tugs(ships)?;
        }
        if by_the_hour {
            self.hours(ships, slots)?;
        }
        self.put(b"end\n")
    }
}

/// The first line of a text.
fn header(stay: bool, by_the_hour: bool) -> &'static [u8] {
    match (stay, by_the_hour) {
        (false, false) => b"flat 1\n",
        (true, false) => b"flat 2\n",
        (false, true) => b"flat 3\n",
        (true, true) => b"flat 4\n",
    }
}

/// The problem of this number, whose values are at most 100 units. From `BY_THE_HOUR` on it has one
/// rule more, on the tugs of a fleet by the hour.
pub fn problem(alloc: Global, number: u32, unit: u64) -> Result<Flat, Fail> {
    let mut draft = Draft {
        words: Lcg64Xsh32::new(u64::from(number), 2),
        text: Vec::new(alloc),
    };
    draft.problem(unit, BY_THE_HOUR <= number)?;
    Ok(Flat::read(alloc, &draft.text)?)
}
