//! The numbers of a case.
//! The language: README.md, "Settings".
//! The rule: docs/PROVING.md, "Tests".

/// The numbers of a case.
#[derive(Clone, Copy)]
pub struct Settings {
    /// How many samples a load is for, by which allocation rule, and whether net of reinsurance: 1, or 0.
    pub samples: u32,
    pub rule: u32,
    pub net: u32,
    /// The number of periods of the occurrences.
    pub periods: u32,
    /// The size that the file in `says` says.
    pub size: u32,
    /// The most bytes that a call moves.
    pub most: u32,
    /// The source ends behind so many bytes.
    pub cut: u32,
    /// The call that fails, counted from 1, of the files, the output files, the source, the sink and standard error; 0 for none.
    pub files: u32,
    pub outputs: u32,
    pub source: u32,
    pub sink: u32,
    pub err: u32,
    /// So many calls of a reader or a writer are interrupted before each one that moves bytes.
    pub interrupted: u32,
    /// How often the words are run over the same reader and writer.
    pub times: u32,
}

impl Settings {
    /// The numbers of a case that gives none.
    pub(crate) fn new() -> Self {
        Settings {
            samples: 10,
            rule: 2,
            net: 1,
            periods: 0,
            size: 0,
            most: u32::MAX,
            cut: u32::MAX,
            files: 0,
            outputs: 0,
            source: 0,
            sink: 0,
            err: 0,
            interrupted: 0,
            times: 1,
        }
    }

    /// Sets the number of this name. Answers whether there is one.
    pub(crate) fn set(&mut self, name: &str, number: u32) -> bool {
        match name {
            "samples" => self.samples = number,
            "rule" => self.rule = number,
            "net" => self.net = number,
            "periods" => self.periods = number,
            "size" => self.size = number,
            "most" => self.most = number,
            "cut" => self.cut = number,
            "fails files" => self.files = number,
            "fails outputs" => self.outputs = number,
            "fails source" => self.source = number,
            "fails sink" => self.sink = number,
            "fails err" => self.err = number,
            "interrupted" => self.interrupted = number,
            "times" => self.times = number,
            _ => return false,
        }
        true
    }
}
