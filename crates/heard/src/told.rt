//! Which values of DUT1 the stations of a window tell.

/// The numbers of the values, counted from the most negative one: none where a station isn't heard, or where its seconds tell
/// no one value.
#[derive(Clone, Copy, PartialEq, Eq)]
pub struct Told {
    /// What MSF tells.
    pub msf: Option<u8>,
    /// What WWVB tells.
    pub wwvb: Option<u8>,
}
