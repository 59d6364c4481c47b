//! Whether rules need a text whose fleets have hours.

ghost use Rattle.std.specs.Prelude.{◌≡◌};
ghost use Rattle.hw_flat.specs.Text.{hours_needed};
ghost use Rattle.hw_flat.specs.TextForms.{has_hours, any_hours};

use hw_model::{MOST_PLAIN_FLEET, Rule};

/// Whether the rule has steps, or a fleet above those of the texts without hours.
fn has_hours(rule: &Rule) -> bool
    ensures { result ≡ has_hours rule.now }
{
    match rule {
        Rule::Tugs { fleet, later, .. } => !later.items.is_empty() || MOST_PLAIN_FLEET < *fleet,
        _ => false,
    }
}

/// Whether one of the rules does.
pub fn any_hours(rules: &[Rule]) -> bool
    ensures { result ≡ any_hours rules.now }
{
    rules.iter().any(|rule| has_hours(rule))
}

/// Whether the header fits the rules: where it gives fleets hours, one of the rules needs them.
pub fn hours_needed(hours: bool, rules: &[Rule]) -> bool
    ensures { result ≡ hours_needed hours rules.now }
{
    !hours || any_hours(rules)
}
