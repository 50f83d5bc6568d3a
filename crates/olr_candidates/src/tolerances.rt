//! How far a line of the map may differ from its point, and a route from its leg.

ghost use Rattle.std.specs.Prelude.{◌≡◌, Decides, IfErr, IfOk};
ghost use Rattle.olr_candidates.specs.declared.tolerances.Tolerance.TheVariants.{Radius, Bearing, Class, Lowest, Percent, Slack};
ghost use Rattle.olr_candidates.specs.Tolerances.{IsFirstOutOfRange, IsTolerance, by_name, greatest_of, least_of, order_of, tolerance_name};

use std::fmt;

/// The name of a tolerance.
#[derive(Clone, Copy, Debug, PartialEq, Eq)]
pub enum Tolerance {
    /// How far a line may lie from its point.
    Radius,
    /// How far bearings may differ.
    Bearing,
    /// How far classes may differ.
    Class,
    /// What is added to the lowest class of a leg to give its class limit.
    Lowest,
    /// How far the interval of a leg is widened, in percent of each end.
    Percent,
    /// How far it is then widened at both ends.
    Slack,
}

impl Tolerance {
    /// How many there are.
    pub const COUNT: usize = 6;

    /// All of them, in the order in which [`Tolerances::new`] tests their values.
    pub const ALL: [Tolerance; Tolerance::COUNT] = [
        Tolerance::Radius,
        Tolerance::Bearing,
        Tolerance::Class,
        Tolerance::Lowest,
        Tolerance::Percent,
        Tolerance::Slack,
    ];

    /// Its number in [`Tolerance::ALL`], from 0.
    pub fn order(self) -> usize
        ensures { result ≡ order_of self }
    {
        self as usize
    }

    /// Its text, as in the option that gives its value.
    pub fn text(self) -> &'static str
        ensures { result.now ≡ tolerance_name self }
    {
        match self {
            Tolerance::Radius => "radius",
            Tolerance::Bearing => "bearing",
            Tolerance::Class => "class",
            Tolerance::Lowest => "lowest",
            Tolerance::Percent => "percent",
            Tolerance::Slack => "slack",
        }
    }

    /// The least value of this tolerance: the radius in metres, the bearing in sectors, classes in
    /// steps, the percent, the slack in decimetres.
    pub fn least(self) -> u32
        ensures { result ≡ least_of self }
    {
        match self {
            Tolerance::Radius => 1,
            _ => 0,
        }
    }

    /// The greatest value of this tolerance, in the same units.
    pub fn greatest(self) -> u32
        ensures { result ≡ greatest_of self }
    {
        match self {
            Tolerance::Radius => 1_000,
            Tolerance::Bearing => 16,
            Tolerance::Class | Tolerance::Lowest => 7,
            Tolerance::Percent => 100,
            Tolerance::Slack => 10_000,
        }
    }

    /// Whether this tolerance can have this value.
    pub fn allows(self, value: u32) -> bool
        ensures { Decides result (IsTolerance self value) }
    {
        self.least() <= value && value <= self.greatest()
    }
}

/// A tolerance is out of its range.
#[derive(Clone, Copy, Debug, PartialEq, Eq)]
pub struct BadTolerance(pub Tolerance);

/// How far a line of the map may differ from its point, and a route from its leg.
#[derive(Clone, Copy, Debug, PartialEq, Eq)]
pub struct Tolerances {
    /// How far a line may lie from its point, in metres: 1 to 1000.
    pub radius: u32,
    /// How far bearings may differ, in sectors: 0 to 16.
    pub bearing: u32,
    /// How far classes may differ: 0 to 7.
    pub class: u32,
    /// What is added to the lowest class of a leg to give its class limit, which is 7 at most: 0 to
    /// 7.
    pub lowest: u32,
    /// How far the interval of a leg is widened, in percent of each end: 0 to 100.
    pub percent: u32,
    /// How far it is then widened at both ends, in decimetres: 0 to 10,000.
    pub slack: u32,
    pub ghost radius_in_range: { IsTolerance Radius radius },
    pub ghost bearing_in_range: { IsTolerance Bearing bearing },
    pub ghost class_in_range: { IsTolerance Class class },
    pub ghost lowest_in_range: { IsTolerance Lowest lowest },
    pub ghost percent_in_range: { IsTolerance Percent percent },
    pub ghost slack_in_range: { IsTolerance Slack slack },
}

impl Default for Tolerances {
    ghost use Rattle.olr_candidates.specs.Tolerances.{default_of};
    ghost use Rattle.olr_candidates.specs.Values.{value_of};
    ghost use Rattle.olr_candidates.specs.declared.tolerances.Tolerance.{Tolerance};

    /// A radius of 100 metres, 4 sectors, every class, a class limit that is the lowest class, 30
    /// percent and 300 decimetres of slack.
    fn default() -> Self
        ensures { (name : Tolerance) → value_of result name ≡ default_of name }
    {
        Tolerances {
            radius: 100,
            bearing: 4,
            class: 7,
            lowest: 0,
            percent: 30,
            slack: 300,
        }
    }
}

impl Tolerances {
    ghost use Rattle.olr_candidates.specs.Values.{IsChanged, value_of};

    /// These tolerances: radius in metres, bearing in sectors, class and lowest as differences of
    /// class numbers, percent, and slack in decimetres.
    ///
    /// # Errors
    ///
    /// The name of the first, in this order, that is out of its range.
    pub fn new(
        radius: u32,
        bearing: u32,
        class: u32,
        lowest: u32,
        percent: u32,
        slack: u32,
    ) -> Result<Tolerances, BadTolerance>
        ensures radius { IfOk result (λ accepted. accepted.radius ≡ radius) }
        ensures bearing { IfOk result (λ accepted. accepted.bearing ≡ bearing) }
        ensures class { IfOk result (λ accepted. accepted.class ≡ class) }
        ensures lowest { IfOk result (λ accepted. accepted.lowest ≡ lowest) }
        ensures percent { IfOk result (λ accepted. accepted.percent ≡ percent) }
        ensures slack { IfOk result (λ accepted. accepted.slack ≡ slack) }
        ensures refused { IfErr result (λ bad.
            IsFirstOutOfRange (by_name radius bearing class lowest percent slack) bad.0) }
    {
        if !Tolerance::Radius.allows(radius) {
            return Err(BadTolerance(Tolerance::Radius));
        }
        if !Tolerance::Bearing.allows(bearing) {
            return Err(BadTolerance(Tolerance::Bearing));
        }
        if !Tolerance::Class.allows(class) {
            return Err(BadTolerance(Tolerance::Class));
        }
        if !Tolerance::Lowest.allows(lowest) {
            return Err(BadTolerance(Tolerance::Lowest));
        }
        if !Tolerance::Percent.allows(percent) {
            return Err(BadTolerance(Tolerance::Percent));
        }
        if !Tolerance::Slack.allows(slack) {
            return Err(BadTolerance(Tolerance::Slack));
        }
        Ok(Tolerances {
            radius,
            bearing,
            class,
            lowest,
            percent,
            slack,
        })
    }

    /// The value of the tolerance of a name.
    pub fn value(&self, name: Tolerance) -> u32
        ensures { result ≡ value_of self.now name }
    {
        match name {
            Tolerance::Radius => self.radius,
            Tolerance::Bearing => self.bearing,
            Tolerance::Class => self.class,
            Tolerance::Lowest => self.lowest,
            Tolerance::Percent => self.percent,
            Tolerance::Slack => self.slack,
        }
    }

    /// The same tolerances, but for the one of this name, which has this value.
    pub fn with(&self, name: Tolerance, value: u32) -> Tolerances
        requires { IsTolerance name value }
        ensures { IsChanged name value self.now result }
    {
        let mut changed = *self;
        match name {
            Tolerance::Radius => changed.radius = value,
            Tolerance::Bearing => changed.bearing = value,
            Tolerance::Class => changed.class = value,
            Tolerance::Lowest => changed.lowest = value,
            Tolerance::Percent => changed.percent = value,
            Tolerance::Slack => changed.slack = value,
        }
        changed
    }
}

impl fmt::Display for Tolerances {
    ghost use Rattle.std.specs.Prelude.{Some};
    ghost use Rattle.olr_candidates.specs.Values.{tolerances_text};

    ghost output = { λ tolerances. Some (tolerances_text tolerances) };

    /// The numbers in decimal, in the order of [`Tolerance::ALL`], a space between each two.
    fn fmt<W: fmt::Write>(&self, f: &mut fmt::Formatter<W>) -> fmt::Result {
        write!(
            f,
            "{} {} {} {} {} {}",
            self.radius, self.bearing, self.class, self.lowest, self.percent, self.slack,
        )
    }
}
