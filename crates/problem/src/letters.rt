//! The letter that a list gives a point, by how its block factors: docs/SPECIFICATION.md, "List".

ghost use Rattle.std.specs.Prelude.{◌≡◌};
ghost use Rattle.problem.specs.Letters as Letters;

use linearization::LocalLinearization;
use point_block::PointBlockFactor;
use point_block::point_damping::ValidDamping;

// How a point's block factors
#[derive(Clone, Copy, Debug, PartialEq, Eq)]
enum BlockQuality {
    NotFactored,
    // At damping zero, with a reciprocal condition number of at most 192ε
    Weak,
    // At damping zero, with one above that
    Good,
    // At another damping
    Factored,
}

impl BlockQuality {
    // The quality of a block's point Hessian at a damping
    #[tactic(auto, unfolding(crate::specs::Letters::quality_of))]
    fn of(local: LocalLinearization, damping: ValidDamping) -> Self
        ensures { result ≡ Letters.quality_of local damping }
    {
        let Ok(factor) = PointBlockFactor::new(local.point_hessian, damping) else {
            return BlockQuality::NotFactored;
        };
        if !damping.is_zero() {
            return BlockQuality::Factored;
        }
        if point_block::is_weak(factor.reciprocal_condition_number(local.point_hessian)) {
            BlockQuality::Weak
        } else {
            BlockQuality::Good
        }
    }

    // Its letter, in ASCII
    fn byte(self) -> u8
        ensures { result ≡ Letters.letter_byte self }
    {
        match self {
            BlockQuality::NotFactored => b'n',
            BlockQuality::Weak => b'w',
            BlockQuality::Good => b'g',
            BlockQuality::Factored => b'f',
        }
    }
}

/// The letter of a block at a damping. `n`: it does not factor. At damping zero, `w`: it factors
/// with a reciprocal condition number of at most 192ε; `g`: with one above that. `f`: it factors
/// at another damping.
#[tactic(auto, unfolding(crate::specs::Letters::letter_of))]
pub fn letter_of(local: LocalLinearization, damping: ValidDamping) -> u8
    ensures { result ≡ Letters.letter_of local damping }
{
    BlockQuality::of(local, damping).byte()
}
