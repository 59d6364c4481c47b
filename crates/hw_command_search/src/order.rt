//! The order in which searchers take turns, and the word that it is read from.

ghost use Rattle.std.specs.Prelude.{◌≡◌, ◌≤◌, ◌∷◌, [], length};
ghost use Rattle.hw_command_search.specs.Orders.{order_read, rule_of_letter};

use hw_search::Branching;
use std::marker::Model;

/// The most turns of an order.
pub const MOST_TURNS: usize = 64;

/// The branching rules of 1 to 64 turns. After the last turn the first one comes again. It takes no
/// memory.
#[derive(Clone, Copy)]
pub struct Order {
    rules: [Branching; MOST_TURNS],
    count: usize,
}

impl Model for Order {
    ghost use Rattle.std.specs.Prelude.{List, take, length};
    ghost use Rattle.hw_search_laws.specs.declared.outcome.Branching.{Branching as BranchingOf};
    ghost use Rattle.hw_command_search.specs.Orders.{IsTurnOrder, count_back, filled_order, rules_back};

    ghost Value = { List BranchingOf };

    ghost view = { λ o. take o.count o.rules };

    ghost invariant = { λ o. IsTurnOrder o.rules o.count };

    ghost inverse = { λ turns. record { rules = filled_order turns; count = length turns } };

    ghost inverse_ok = { λ o h i. record { rules = rules_back o.rules o.count h i; count = count_back o.rules o.count h i } };
}

/// The branching rule of a letter.
fn rule_of(letter: u8) -> Option<Branching>
    ensures { result ≡ rule_of_letter letter }
{
    match letter {
        b'g' => Some(Branching::Greatest),
        b'e' => Some(Branching::Earliest),
        b'l' => Some(Branching::Latest),
        _ => None,
    }
}

impl Order {
    /// Reads 1 to 64 letters, a turn each: `g` for Greatest, `e` for Earliest, `l` for Latest. No other
    /// word is an order.
    pub fn read(word: &str) -> Option<Order>
        ensures { result ≡ order_read word.now }
    {
        let letters = word.as_bytes();
        if letters.is_empty() || letters.len() > MOST_TURNS {
            return None;
        }
        let mut rules = [Branching::Greatest; MOST_TURNS];
        for (place, letter) in letters.iter().enumerate() {
            match rule_of(*letter) {
                Some(rule) => rules[place] = rule,
                None => return None,
            }
        }
        Some(Order {
            rules,
            count: letters.len(),
        })
    }

    /// The order of one searcher, which has every turn.
    pub fn one(rule: Branching) -> Order
        ensures { result ≡ rule ∷ [] }
    {
        let mut rules = [Branching::Greatest; MOST_TURNS];
        rules[0] = rule;
        Order { rules, count: 1 }
    }

    /// The rules of the turns, in order.
    pub fn rules(&self) -> &[Branching]
        ensures rules { result.now ≡ self.now }
        ensures some { 1 ≤ length self.now }
        ensures few { length self.now ≤ MOST_TURNS }
    {
        &self.rules[..self.count]
    }
}
