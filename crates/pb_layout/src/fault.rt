/// What is wrong with lines that are read.
#[derive(Clone, Copy, Debug, PartialEq, Eq)]
pub enum LayoutFault {
    /// The first word of the device isn't the magic: there is no region.
    NoMagic,
    /// The first word of the header that the format refuses.
    BadHeader { word: u32 },
    /// The first line of a record that the format refuses, counted within the record.
    BadRecord { line: u32 },
}
