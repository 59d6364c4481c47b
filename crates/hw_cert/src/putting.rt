//! The text of a line, given to a writer.

ghost use Rattle.std.specs.Prelude.{◌≡◌, ◌++◌, ◌∷◌, [], true, codes, decimal, map};
ghost use Rattle.std.specs.List.{list_all, flat_map};
ghost use Rattle.hw_desk.specs.Writers.{Puts};
ghost use Rattle.hw_cert.specs.Spelled.{narrows_line, tugs_line};
ghost use Rattle.hw_cert.specs.Texts.{lit_text, block_text, price_text, line_text, pair_text};
ghost use Rattle.hw_cert.specs.Worded.{spaced_number, spaced_numbers, lits_text, blocks_text, prices_text, worded};
ghost use Rattle.hw_cert.specs.Laws.{is_small, is_wide, lit_numbers, block_numbers, line_numbers, wide_numbers};

use hw_cert_lines::{Hints, Line};
use hw_desk::Writer;
use hw_lits::{Clause, Lit};
use hw_price_laws::{Block, Due, Tariff, Toll};

/// Puts a number after a space.
#[tactic(auto, using(hw_desk::proofs::Written::puts_on))]
fn put_number<W: Writer>(out: &mut W, number: u32)
    ensures puts { Puts (spaced_number number) (W.state out.old) (W.state out.new) }
    ensures small { is_small number ≡ true }
{
    out.put(b" ");
    out.put_number(u64::from(number));
}

/// Puts numbers, each after a space.
#[tactic(auto, using(hw_desk::proofs::Written::puts_on))]
fn put_numbers<W: Writer>(out: &mut W, numbers: &[u32])
    ensures puts { Puts (spaced_numbers numbers.now) (W.state out.old) (W.state out.new) }
    ensures small { list_all is_small numbers.now ≡ true }
{
    for number in numbers {
        put_number(out, *number);
    }
}

/// Puts the letter of a literal, and its two numbers with a point between.
#[tactic(auto, using(hw_desk::proofs::Written::puts_on))]
fn put_pair<W: Writer>(out: &mut W, letter: &[u8], x: u32, y: u32)
    ensures puts { Puts (letter.now ++ pair_text x y) (W.state out.old) (W.state out.new) }
    ensures small { list_all is_small (x ∷ y ∷ []) ≡ true }
{
    out.put(letter);
    out.put_number(u64::from(x));
    out.put(b".");
    out.put_number(u64::from(y));
}

/// Puts a literal after a space.
fn put_lit<W: Writer>(out: &mut W, lit: Lit)
    ensures puts { Puts (32 ∷ lit_text lit) (W.state out.old) (W.state out.new) }
    ensures small { list_all is_small (lit_numbers lit) ≡ true }
{
    match lit {
        Lit::AtOrAfter { ship, slot } => put_pair(out, b" a", ship, slot),
        Lit::Before { ship, slot } => put_pair(out, b" b", ship, slot),
        Lit::First { v, w } => put_pair(out, b" f", v, w),
        Lit::NotFirst { v, w } => put_pair(out, b" n", v, w),
    }
}

/// Puts literals, each after a space.
#[tactic(auto, using(hw_desk::proofs::Written::puts_on))]
fn put_lits<W: Writer>(out: &mut W, lits: &[Lit])
    ensures puts { Puts (lits_text lits.now) (W.state out.old) (W.state out.new) }
    ensures small { list_all is_small (flat_map lit_numbers lits.now) ≡ true }
{
    for lit in lits {
        put_lit(out, *lit);
    }
}

/// Puts a letter and numbers.
#[tactic(auto, using(hw_desk::proofs::Written::puts_on))]
fn put_listed<W: Writer>(out: &mut W, letter: &[u8], numbers: &[u32])
    ensures puts { Puts (letter.now ++ spaced_numbers numbers.now) (W.state out.old) (W.state out.new) }
    ensures small { list_all is_small numbers.now ≡ true }
{
    out.put(letter);
    put_numbers(out, numbers);
}

#[tactic(auto, using(hw_desk::proofs::Written::puts_on))]
fn put_explain<W: Writer>(out: &mut W, restriction: u32, clause: &Clause)
    ensures puts { Puts (worded (Line.Explain restriction clause.now)) (W.state out.old) (W.state out.new) }
    ensures small { list_all is_small (line_numbers (Line.Explain restriction clause.now)) ≡ true }
{
    out.put(b"e");
    put_number(out, restriction);
    put_lits(out, clause.as_slice());
}

#[tactic(auto, using(hw_desk::proofs::Written::puts_on))]
fn put_order<W: Writer>(out: &mut W, v: u32, w: u32, x: u32, clause: &Clause)
    ensures puts { Puts (worded (Line.Order v w x clause.now)) (W.state out.old) (W.state out.new) }
    ensures small { list_all is_small (line_numbers (Line.Order v w x clause.now)) ≡ true }
{
    out.put(b"o");
    put_number(out, v);
    put_number(out, w);
    put_number(out, x);
    put_lits(out, clause.as_slice());
}

#[tactic(auto, using(hw_desk::proofs::Written::puts_on))]
fn put_goal<W: Writer>(out: &mut W, clause: &Clause)
    ensures puts { Puts (worded (Line.Goal clause.now)) (W.state out.old) (W.state out.new) }
    ensures small { list_all is_small (line_numbers (Line.Goal clause.now)) ≡ true }
{
    out.put(b"g");
    put_lits(out, clause.as_slice());
}

#[tactic(auto, using(hw_desk::proofs::Written::puts_on))]
fn put_lemma<W: Writer>(out: &mut W, clause: &Clause, hints: &Hints)
    ensures puts { Puts (worded (Line.Lemma clause.now hints.now)) (W.state out.old) (W.state out.new) }
    ensures small { list_all is_small (line_numbers (Line.Lemma clause.now hints.now)) ≡ true }
{
    out.put(b"l");
    put_lits(out, clause.as_slice());
    put_listed(out, b" ;", &hints.items);
}

/// Puts the slots of a block with a colon between.
#[tactic(auto, using(hw_desk::proofs::Written::puts_on))]
fn put_slots<W: Writer>(out: &mut W, low: u32, high: u32)
    ensures puts { Puts (decimal low ++ 58 ∷ decimal high) (W.state out.old) (W.state out.new) }
    ensures small { list_all is_small (low ∷ high ∷ []) ≡ true }
{
    out.put_number(u64::from(low));
    out.put(b":");
    out.put_number(u64::from(high));
}

/// Puts a block after a space.
#[tactic(auto, using(hw_desk::proofs::Written::puts_on))]
fn put_block<W: Writer>(out: &mut W, block: Block)
    ensures puts { Puts (32 ∷ block_text block) (W.state out.old) (W.state out.new) }
    ensures small { list_all is_small (block_numbers block) ≡ true }
{
    put_number(out, block.ship);
    out.put(b":");
    put_slots(out, block.low, block.high);
}

/// Puts blocks, each after a space.
#[tactic(auto, using(hw_desk::proofs::Written::puts_on))]
fn put_blocks<W: Writer>(out: &mut W, blocks: &[Block])
    ensures puts { Puts (blocks_text blocks.now) (W.state out.old) (W.state out.new) }
    ensures small { list_all is_small (flat_map block_numbers blocks.now) ≡ true }
{
    for block in blocks {
        put_block(out, *block);
    }
}

#[tactic(auto, using(hw_desk::proofs::Written::puts_on))]
fn put_narrows<W: Writer>(out: &mut W, blocks: &[Block])
    ensures puts { Puts (worded (narrows_line blocks.now)) (W.state out.old) (W.state out.new) }
    ensures small { list_all is_small (line_numbers (narrows_line blocks.now)) ≡ true }
{
    out.put(b"n");
    put_blocks(out, blocks);
}

#[tactic(auto, using(hw_desk::proofs::Written::puts_on))]
fn put_tugs<W: Writer>(out: &mut W, restriction: u32, slot: u32, most: u32, weights: &[u32])
    ensures puts { Puts (worded (tugs_line restriction slot most weights.now)) (W.state out.old) (W.state out.new) }
    ensures small { list_all is_small (line_numbers (tugs_line restriction slot most weights.now)) ≡ true }
{
    out.put(b"u");
    put_number(out, restriction);
    put_number(out, slot);
    put_number(out, most);
    put_numbers(out, weights);
}

fn put_toll<W: Writer>(out: &mut W, toll: &Toll)
    ensures puts { Puts (worded (Line.Toll toll.now)) (W.state out.old) (W.state out.new) }
    ensures small { list_all is_small (line_numbers (Line.Toll toll.now)) ≡ true }
{
    match toll {
        Toll::Narrows { blocks } => put_narrows(out, &blocks.items),
        Toll::Tugs {
            restriction,
            slot,
            weights,
            most,
        } => put_tugs(out, *restriction, *slot, *most, &weights.items),
    }
}

/// Puts a price after a space.
#[tactic(auto, using(hw_desk::proofs::Written::puts_on))]
fn put_price<W: Writer>(out: &mut W, due: Due)
    ensures puts { Puts (32 ∷ price_text due) (W.state out.old) (W.state out.new) }
    ensures small { is_small due.toll ≡ true }
    ensures wide { is_wide due.price ≡ true }
{
    put_number(out, due.toll);
    out.put(b":");
    out.put_number(due.price);
}

/// Puts prices, each after a space.
#[tactic(auto, using(hw_desk::proofs::Written::puts_on))]
fn put_prices<W: Writer>(out: &mut W, prices: &[Due])
    ensures puts { Puts (prices_text prices.now) (W.state out.old) (W.state out.new) }
    ensures small { list_all is_small (map (λ due. due.toll) prices.now) ≡ true }
    ensures wide { list_all is_wide (map (λ due. due.price) prices.now) ≡ true }
{
    for due in prices {
        put_price(out, *due);
    }
}

#[tactic(auto, using(hw_desk::proofs::Written::puts_on))]
fn put_tariff<W: Writer>(out: &mut W, tariff: &Tariff)
    ensures puts { Puts (worded (Line.Tariff tariff.now)) (W.state out.old) (W.state out.new) }
    ensures small { list_all is_small (line_numbers (Line.Tariff tariff.now)) ≡ true }
    ensures wide { list_all is_wide (wide_numbers (Line.Tariff tariff.now)) ≡ true }
{
    out.put(b"y");
    put_number(out, tariff.scale);
    put_prices(out, &tariff.dues.items);
}

#[tactic(auto, using(hw_desk::proofs::Written::puts_on))]
fn put_priced<W: Writer>(out: &mut W, clause: &Clause)
    ensures puts { Puts (worded (Line.Priced clause.now)) (W.state out.old) (W.state out.new) }
    ensures small { list_all is_small (line_numbers (Line.Priced clause.now)) ≡ true }
{
    out.put(b"p");
    put_lits(out, clause.as_slice());
}

#[tactic(auto, using(hw_desk::proofs::Written::puts_on))]
fn put_bound<W: Writer>(out: &mut W, bound: u64)
    ensures puts { Puts (worded (Line.Bound bound)) (W.state out.old) (W.state out.new) }
    ensures wide { list_all is_wide (wide_numbers (Line.Bound bound)) ≡ true }
{
    out.put(b"b ");
    out.put_number(bound);
}

fn put_words<W: Writer>(out: &mut W, line: &Line)
    ensures puts { Puts (worded line.now) (W.state out.old) (W.state out.new) }
    ensures small { list_all is_small (line_numbers line.now) ≡ true }
    ensures wide { list_all is_wide (wide_numbers line.now) ≡ true }
{
    match line {
        Line::Table(table) => put_listed(out, b"t", table.as_slice()),
        Line::Explain {
            restriction,
            clause,
        } => put_explain(out, *restriction, clause),
        Line::Order { v, w, x, clause } => put_order(out, *v, *w, *x, clause),
        Line::Goal { clause } => put_goal(out, clause),
        Line::Lemma { clause, hints } => put_lemma(out, clause, hints),
        Line::Delete { ids } => put_listed(out, b"d", &ids.items),
        Line::Toll { toll } => put_toll(out, toll),
        Line::Tariff { tariff } => put_tariff(out, tariff),
        Line::Priced { clause } => put_priced(out, clause),
        Line::Bound { bound } => put_bound(out, *bound),
    }
}

/// Puts a line, without its end. It takes no memory.
pub fn put_line<W: Writer>(out: &mut W, line: &Line)
    ensures puts { Puts (line_text line.now) (W.state out.old) (W.state out.new) }
    ensures small { list_all is_small (line_numbers line.now) ≡ true }
    ensures wide { list_all is_wide (wide_numbers line.now) ≡ true }
{
    put_words(out, line);
}
