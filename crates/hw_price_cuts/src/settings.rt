//! The settings of the separation, and what each was chosen on.
//!
//! A plain program of this design was measured first, on the problems of `bench/problems`; what is *of the plain program* is
//! as it was there, and no other value of it is known to have been tried.

/// A slot counts if its ship chose it in more than this part of the steps, in hundredths. Of the plain program.
pub(crate) const OFTEN: i64 = 1;

/// A cut counts as violated if its average usage exceeds the capacity by more than this many hundredths. Of the plain
/// program.
pub(crate) const OVERFILLED: i64 = 2;

/// Slots this far from a seed, or farther, aren't tried for other ships. It makes the separation cheaper in problems with
/// many slots, and came with the days of 40 ships and 288 or 512 slots that `bench/made` writes; nothing is known of other
/// values.
pub(crate) const REACH: u32 = 64;

/// Covers are sought of which at most this many ships can be served together. Of the plain program.
pub(crate) const SERVED: u32 = 4;
