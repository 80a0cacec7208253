//! How much a certificate may hold.

/// The most bytes of a certificate that is read.
pub const CERTIFICATE_LIMIT: u64 = 128_000_000;

/// The most steps of a certificate that is read.
pub const MOST_STEPS: u32 = 2_000_000;

/// The most parts of a certificate, one for each worker.
pub const MOST_PARTS: u8 = 8;

/// The version of a certificate of one station.
pub const ONE_STATION: u8 = 1;

/// The version of a certificate of several stations.
pub const SEVERAL_STATIONS: u8 = 2;
