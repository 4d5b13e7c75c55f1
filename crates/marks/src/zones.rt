// What of a place the tags of a text go by.
ghost use Rattle.std.specs.Prelude.{◌≡◌};
ghost use Rattle.reading.specs.Zones.{zone, landing, is_begun, is_value, element_in};
ghost use Rattle.marks.specs.Strides.{is_calm};

use grammar::{Place, Step};
use reading::Zone;

pub fn zone_of(p: Place) -> Zone
    ensures { result ≡ zone p }
{
    match p {
        Place::Less => Zone::Begun,
        Place::Slash => Zone::Slash,
        Place::Name(e, _)
        | Place::Tag(e, _)
        | Place::Space(e, _)
        | Place::Attribute(e, _, _, _)
        | Place::Equals(e, _, _)
        | Place::Quote(e, _, _) => Zone::InTag(e),
        Place::Value(e, _, j, _, _)
        | Place::Ampersand(e, _, j, _)
        | Place::Entity(e, _, j, _, _, _) => Zone::InValue(e, j),
        _ => Zone::Outside,
    }
}

// Where a step leads.
pub fn landing_of(s: Step) -> Zone
    ensures { result ≡ landing s }
{
    match s {
        Step::Go(p, _) => zone_of(p),
        _ => Zone::Outside,
    }
}

pub fn is_begun(z: Zone) -> bool
    ensures { result ≡ is_begun z }
{
    matches!(z, Zone::Begun)
}

pub fn is_value(z: Zone) -> bool
    ensures { result ≡ is_value z }
{
    matches!(z, Zone::InValue(_, _))
}

// The element that the place is in, or the one known before.
pub fn element_in(z: Zone, d: u8) -> u8
    ensures { result ≡ element_in z d }
{
    match z {
        Zone::InTag(e) | Zone::InValue(e, _) => e,
        _ => d,
    }
}

// May a walk leap in the zone: no tag begins or ends in it.
pub fn is_calm(z: Zone) -> bool
    ensures { result ≡ is_calm z }
{
    !matches!(z, Zone::Begun | Zone::Slash)
}
