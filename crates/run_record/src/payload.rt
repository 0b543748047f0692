//! The numbers of a payload: binary64, eight bytes each, low byte first.

ghost use Rattle.std.specs.Prelude.{◌≡◌, ◌≤◌, ◌*◌, ◌+◌, length};
ghost use Rattle.run_record.specs.Run as Runs;

use crate::fields::NUMBER_SIZE;
use linearization::views::{Correspondence, RelativePose};
use projection::PinholeCamera;
use std::array;

// The number at a byte of a payload
#[tactic(auto, unfolding(crate::specs::Run::number_at), using(crate::proofs::Numbers::word_read))]
pub(crate) fn number_at(payload: &[u8], at: usize) -> f64
    requires { at + 8 ≤ length payload.now }
    ensures { result ≡ Runs.number_at payload.now at }
{
    let bytes = [
        payload[at],
        payload[at + 1],
        payload[at + 2],
        payload[at + 3],
        payload[at + 4],
        payload[at + 5],
        payload[at + 6],
        payload[at + 7],
    ];
    numerics::from_bits(u64::from_le_bytes(bytes))
}

// N numbers from a byte of a payload on
fn numbers_at<const N: usize>(payload: &[u8], at: usize) -> [f64; N]
    requires { at + 8 * N ≤ length payload.now }
    ensures { result ≡ Runs.numbers_at payload.now at N }
{
    array::from_fn(|j| number_at(payload, at + NUMBER_SIZE * j))
}

// What a camera's field carries: fx, fy, cx, cy, skew
#[tactic(auto, unfolding(crate::specs::Run::camera))]
pub(crate) fn camera(payload: &[u8]) -> PinholeCamera
    requires { length payload.now ≡ 40 }
    ensures { result ≡ Runs.camera payload.now }
{
    let [fx, fy, cx, cy, skew]: [f64; 5] = numbers_at(payload, 0);
    PinholeCamera {
        fx,
        fy,
        cx,
        cy,
        skew,
    }
}

// What the pose's field carries (rotation, 9; translation, 3) and what the basis's does (two
// vectors, 6; baseline)
pub(crate) fn pose(pose: &[u8], basis: &[u8]) -> RelativePose
    requires pose { length pose.now ≡ 96 }
    requires basis { length basis.now ≡ 56 }
    ensures { result ≡ Runs.pose pose.now basis.now }
{
    RelativePose {
        rotation: numbers_at(pose, 0),
        translation: numbers_at(pose, 9 * NUMBER_SIZE),
        translation_basis: numbers_at(basis, 0),
        baseline: number_at(basis, 6 * NUMBER_SIZE),
    }
}

// What a point's field carries: the point (3), both observations (2 and 2), the inverse standard
// deviation
pub(crate) fn correspondence(payload: &[u8]) -> Correspondence
    requires { length payload.now ≡ 64 }
    ensures { result ≡ Runs.correspondence payload.now }
{
    Correspondence {
        point: numbers_at(payload, 0),
        view1: numbers_at(payload, 3 * NUMBER_SIZE),
        view2: numbers_at(payload, 5 * NUMBER_SIZE),
        inverse_standard_deviation: number_at(payload, 7 * NUMBER_SIZE),
    }
}
