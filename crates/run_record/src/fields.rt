//! The fields of a run record: a tag, the length of the payload in two bytes, low byte first, and
//! the payload, which is numbers of eight bytes. docs/SPECIFICATION.md, "Run record".

ghost use Rattle.std.specs.Prelude.{◌≡◌};
ghost use Rattle.run_record.specs.Fields as Fields;

// The bytes before a payload: the tag and the length
pub(crate) const HEAD_SIZE: usize = 3;

// The bytes of a number
pub(crate) const NUMBER_SIZE: usize = 8;

// The kinds of field, in the order in which they are due
#[derive(Clone, Copy, Debug, PartialEq, Eq)]
pub(crate) enum Field {
    Camera1,
    Camera2,
    Pose,
    Basis,
    Damping,
    Point,
}

impl Field {
    // The byte that the field begins with
    pub(crate) fn tag(self) -> u8
        ensures { result ≡ Fields.tag self }
    {
        match self {
            Field::Camera1 => 1,
            Field::Camera2 => 2,
            Field::Pose => 3,
            Field::Basis => 4,
            Field::Damping => 5,
            Field::Point => 6,
        }
    }

    // The bytes of the payload
    pub(crate) fn size(self) -> usize
        ensures { result ≡ Fields.size self }
    {
        NUMBER_SIZE
            * match self {
                Field::Camera1 | Field::Camera2 => 5,
                Field::Pose => 12,
                Field::Basis => 7,
                Field::Damping => 1,
                Field::Point => 8,
            }
    }
}
