ghost use Rattle.std.specs.Prelude.{◌≡◌, ◌<◌};
ghost use Rattle.motion.specs.Asked.{Near};
ghost use Rattle.points.specs.Patterns.{eighths_place, offset, points, point_of, hexagon_point};
ghost use Rattle.points.specs.Asked.{Plain};

use motion::vector::MotionVector;

const DIAMOND_R1_PATTERN: [MotionVector; 4] = [
    MotionVector { row: 8, col: 0 },
    MotionVector { row: 0, col: 8 },
    MotionVector { row: -8, col: 0 },
    MotionVector { row: 0, col: -8 },
];

// Index 13 repeats index 7, as in the Rust.
const UMH_PATTERN: [MotionVector; 16] = [
    MotionVector { row: 32, col: -16 },
    MotionVector { row: 32, col: -8 },
    MotionVector { row: 32, col: 0 },
    MotionVector { row: 32, col: 8 },
    MotionVector { row: 32, col: 16 },
    MotionVector { row: 16, col: 24 },
    MotionVector { row: 0, col: 32 },
    MotionVector { row: -16, col: 24 },
    MotionVector { row: -32, col: 16 },
    MotionVector { row: -32, col: 8 },
    MotionVector { row: -32, col: 0 },
    MotionVector { row: -32, col: -8 },
    MotionVector { row: -32, col: -16 },
    MotionVector { row: -16, col: 24 },
    MotionVector { row: 0, col: -32 },
    MotionVector { row: 16, col: -24 },
];

// In clockwise order, so that a move's neighbours are the next indices modulo 6.
const HEXAGON_PATTERN: [MotionVector; 6] = [
    MotionVector { row: -16, col: 0 },
    MotionVector { row: -8, col: 16 },
    MotionVector { row: 8, col: 16 },
    MotionVector { row: 16, col: 0 },
    MotionVector { row: 8, col: -16 },
    MotionVector { row: -8, col: -16 },
];

const SQUARE_REFINE_PATTERN: [MotionVector; 8] = [
    MotionVector { row: 8, col: -8 },
    MotionVector { row: 8, col: 0 },
    MotionVector { row: 8, col: 8 },
    MotionVector { row: 0, col: -8 },
    MotionVector { row: 0, col: 8 },
    MotionVector { row: -8, col: -8 },
    MotionVector { row: -8, col: 0 },
    MotionVector { row: -8, col: 8 },
];

// It moves rows, whatever its name says.
const HORIZONTAL_LINE: [MotionVector; 2] = [
    MotionVector { row: -8, col: 0 },
    MotionVector { row: 8, col: 0 },
];

const VERTICAL_LINE: [MotionVector; 2] = [
    MotionVector { row: 0, col: -8 },
    MotionVector { row: 0, col: 8 },
];

// The patterns that a stage goes through in turn; a diamond with the log of its radius.
#[derive(Clone, Copy, PartialEq, Eq, Debug)]
pub enum Pattern {
    Diamond(u32),
    Square,
    RowLine,
    ColLine,
    Eighths,
    Umh,
}

#[tactic(auto, unfolding(crate::specs::Patterns::eighths_place))]
fn eighths_place(i: usize) -> usize
    requires { i < 24 }
    ensures { result ≡ eighths_place i }
{
    if i < 12 { i } else { i + 1 }
}

fn eighths_offset(i: usize) -> MotionVector
    requires { i < 24 }
    ensures { result ≡ offset Pattern.Eighths i }
{
    let place = eighths_place(i);
    MotionVector {
        row: (place / 5) as i16 - 2,
        col: (place % 5) as i16 - 2,
    }
}

fn pattern_offset(pattern: Pattern, i: usize) -> MotionVector
    requires { Plain pattern × (i < points pattern) }
    ensures { result ≡ offset pattern i }
{
    match pattern {
        Pattern::Diamond(radius_log2) => DIAMOND_R1_PATTERN[i] << radius_log2,
        Pattern::Square => SQUARE_REFINE_PATTERN[i],
        Pattern::RowLine => HORIZONTAL_LINE[i % 2] * (i / 2 * 2 + 1) as i16,
        Pattern::ColLine => VERTICAL_LINE[i % 2] * (i / 2 * 2 + 1) as i16,
        Pattern::Eighths => eighths_offset(i),
        Pattern::Umh => UMH_PATTERN[i % 16] * (i / 16 + 1) as i16,
    }
}

#[tactic(auto, unfolding(crate::specs::Patterns::points))]
pub fn pattern_points(pattern: Pattern) -> usize
    ensures { result ≡ points pattern }
{
    match pattern {
        Pattern::Diamond(_) => 4,
        Pattern::Square => 8,
        Pattern::RowLine => 24,
        Pattern::ColLine => 12,
        Pattern::Eighths => 24,
        Pattern::Umh => 96,
    }
}

// Point i of a pattern round a centre.
#[tactic(auto, unfolding(crate::specs::Patterns::point_of))]
pub fn pattern_point(pattern: Pattern, center: MotionVector, i: usize) -> MotionVector
    requires { Plain pattern × (i < points pattern) × Near center }
    ensures { result ≡ point_of pattern center i }
{
    center + pattern_offset(pattern, i)
}

// Point i of the hexagon round a centre.
#[tactic(auto, unfolding(crate::specs::Patterns::hexagon_point))]
pub fn hexagon_point(center: MotionVector, i: usize) -> MotionVector
    requires { (i < 6) × Near center }
    ensures { result ≡ hexagon_point center i }
{
    center + HEXAGON_PATTERN[i]
}
