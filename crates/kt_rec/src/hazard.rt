//! What strikes: events, their footprints, and the damage that an intensity does.
//! The rule: docs/TABLES.md, "Columns".

/// A row of `events`.
#[derive(Clone, Copy)]
pub struct Event {
    /// The event.
    pub event_id: u32,
}

/// A row of `footprint`: the probability of an intensity at a place in an event.
#[derive(Clone, Copy)]
pub struct Footprint {
    /// The event.
    pub event_id: u32,
    /// The area and peril.
    pub areaperil_id: u32,
    /// The intensity bin, 1 to 10,000.
    pub intensity_bin_id: u32,
    /// Its probability in parts per million.
    pub prob: u32,
}

/// A row of `footprint_idx`: where the records of an event stand in the footprint file.
#[derive(Clone, Copy)]
pub struct FootprintIdx {
    /// The event.
    pub event_id: u32,
    /// The byte of the footprint file at which its first record begins.
    pub offset: u64,
    /// The size of all its records in bytes.
    pub size: u64,
}

/// A row of `vulnerability`: the probability of a damage at an intensity.
#[derive(Clone, Copy)]
pub struct Vulnerability {
    /// The vulnerability.
    pub vulnerability_id: u32,
    /// The intensity bin, 1 to 10,000.
    pub intensity_bin_id: u32,
    /// The damage bin, 1 to 1,000.
    pub damage_bin_id: u32,
    /// Its probability in parts per million.
    pub prob: u32,
}

/// A row of `damage_bin_dict`: a range of damage, as parts of the insured value.
#[derive(Clone, Copy)]
pub struct DamageBin {
    /// The damage bin, 1 to 1,000.
    pub bin_index: u32,
    /// Its lower end in parts per million.
    pub bin_from: u32,
    /// Its upper end in parts per million.
    pub bin_to: u32,
    /// Its mean in parts per million.
    pub interpolation: u32,
    /// How its ends belong to it, a code that the model vendor gives.
    pub interval_type: u32,
}

/// A row of `random`.
#[derive(Clone, Copy)]
pub struct Random {
    /// A random number in parts per million.
    pub random: u32,
}

/// A row of the footprint of one event.
#[derive(Clone, Copy)]
pub struct FootRow {
    /// The area and peril.
    pub areaperil: u32,
    /// The intensity bin, 1 to 10,000.
    pub intensity: u32,
    /// Its probability in parts per million.
    pub prob: u32,
}
