//! How a receiver is tuned, and what a tenth of a second costs.

/// How a receiver lags, how much it counts, and what a tenth of a second costs it.
#[derive(Clone, Copy)]
pub struct Tuning {
    /// By how many milliseconds its edges come late, 0 to 500.
    pub delay: u16,
    /// What its costs are multiplied by, 1 to 100.
    pub weight: u8,
    /// The receiver's own cost table, in place of the bank's.
    pub table: Option<CostTable>,
}

/// What a tenth of a second costs by the number of its low milliseconds, 0 to 100: where the symbol is low there
/// in `low`, where it is high in `high`. Each entry is at most 200.
#[derive(Clone, Copy, PartialEq, Eq)]
pub struct CostTable {
    /// The costs where the symbol is low.
    pub low: [u8; 101],
    /// The costs where the symbol is high.
    pub high: [u8; 101],
    /// What a second costs at the most, 1 to 2,000. Where it is given, a symbol costs what it costs more than the
    /// cheapest symbol of its station.
    pub second: Option<u16>,
}

impl Default for CostTable {
    ghost use Rattle.std.specs.Prelude.{◌≡◌};
    ghost use Rattle.signal_base.specs.Limits.{IsPriced};
    ghost use Rattle.signal_base.specs.Table.{difference_table};

    ghost is_default = { λ table. table ≡ difference_table };

    /// The table that counts the milliseconds that differ: `low[n]` is `100 - n`, and `high[n]` is `n`. A second costs the
    /// sum of its tenths.
    fn default() -> CostTable
        ensures table { result ≡ difference_table }
        ensures priced { IsPriced result }
    {
        let mut low = [0u8; 101];
        let mut high = [0u8; 101];
        for n in 0..101u8 {
            low[n as usize] = 100 - n;
            high[n as usize] = n;
        }
        CostTable {
            low,
            high,
            second: None,
        }
    }
}
