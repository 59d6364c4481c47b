//! Areas on a picture.

/// A part of a picture or of a window, in its own units: from `left` to before `right`, and from `top`
/// down to `bottom`.
#[derive(Clone, Copy)]
pub struct Area {
    pub left: u64,
    pub right: u64,
    pub top: u64,
    pub bottom: u64,
}
