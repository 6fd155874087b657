//! Which layers a rule acts on, the severity of a broken one, and which items it bans.

/// On which layers a rule acts. Layers are numbered from front to back, as their bits are: 0 is F.Cu, 31 is B.Cu, and
/// the inner ones lie between.
#[derive(Clone, Copy, Debug, Drop, PartialEq, Eq)]
pub enum RuleLayer {
    /// The rule has no layer: it acts on all, and also where no layer is asked.
    Any,
    /// F.Cu and B.Cu.
    Outer,
    /// The layers between them.
    Inner,
    One(u32),
}

/// The severity of a broken rule. The last two give no row.
#[derive(Clone, Copy, Debug, Drop, PartialEq, Eq)]
pub enum Severity {
    Error,
    Warning,
    Ignore,
    Exclusion,
}

/// Which items a rule bans.
#[derive(Clone, Copy, Debug, Drop, PartialEq, Eq)]
pub struct Disallow {
    pub tracks: bool,
    pub vias: bool,
    pub micro_vias: bool,
    pub buried_vias: bool,
    pub pads: bool,
    pub zones: bool,
    pub graphics: bool,
    pub holes: bool,
    pub footprints: bool,
    pub texts: bool,
}

impl Disallow {
    /// Nothing is banned.
    pub const NONE: Disallow = Disallow {
        tracks: false,
        vias: false,
        micro_vias: false,
        buried_vias: false,
        pads: false,
        zones: false,
        graphics: false,
        holes: false,
        footprints: false,
        texts: false,
    };
}
