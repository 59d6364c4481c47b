//! The name under which a feed was begun or a tray made.

ghost use Rattle.std.specs.Prelude.{◌≡◌, IfOk, None};
ghost use Rattle.hw_desk.specs.Names.{kept_name};

use hw_model::NoMemory;
use std::alloc::Global;
use std::marker::Model;

/// How many bytes of a name are kept.
const MOST: usize = 256;

/// The name given at a begin or a make, seen as none where there was none or it had more than 256 bytes.
#[derive(Drop)]
pub struct KeptName {
    told: bool,
    text: String,
}

impl Model for KeptName {
    ghost use Rattle.std.specs.Prelude.{Option, List, ℕ, cond, Some, None, ◌≤◌, string_bytes, string_capacity};

    ghost Value = { Option (List ℕ) };

    ghost view = { λ n. cond n.told (Some (string_bytes n.text)) None };

    ghost invariant = { λ n. 256 ≤ string_capacity n.text };
}

impl KeptName {
    /// No name, with room for one of 256 bytes.
    pub fn new(alloc: Global) -> Result<KeptName, NoMemory>
        ensures { IfOk result (λ name. name ≡ None) }
    {
        let text = String::with_capacity(alloc, MOST)?;
        Ok(KeptName { told: false, text })
    }

    /// Keeps a name. It takes no memory.
    pub fn keep(&mut self, name: &str)
        ensures { self.new ≡ kept_name name.now }
    {
        self.text.clear();
        self.told = name.len() <= MOST && self.text.push_str(name).is_ok();
    }
}
