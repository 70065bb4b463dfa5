// One entry of a delta list: what a region of the variation space adds.

#[derive(Clone, Copy, Debug, Default, PartialEq, Eq)]
pub struct Delta {
    pub region: u16,
    pub delta: i16,
}
