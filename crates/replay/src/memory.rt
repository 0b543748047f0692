//! What a call is given, and the memory that it is lent.

/// The words of a line's inputs, each also as the number whose pattern it is.
#[derive(Clone, Copy)]
pub struct Inputs {
    pub words: [u64; 108],
    pub numbers: [f64; 108],
}

/// The memory that a call is lent; it uses as much of the front as it needs.
#[derive(Clone, Copy)]
pub struct Memory {
    pub numbers: [f64; 59],
    pub counts: [u16; 3],
}

impl Inputs {
    /// The words, with the number of each.
    pub fn from_words(words: [u64; 108]) -> Self {
        let mut numbers = [0.0; 108];
        for (x, word) in numbers.iter_mut().zip(&words) {
            *x = numerics::from_bits(*word);
        }
        Self { words, numbers }
    }

    /// The counts of the system that the inputs begin with.
    pub fn counts(&self) -> [u16; 3] {
        [
            (self.words[45] % 65536) as u16,
            (self.words[46] % 65536) as u16,
            (self.words[47] % 65536) as u16,
        ]
    }

    /// Memory that holds the system that the inputs begin with.
    pub fn system(&self) -> Memory {
        let mut lent = Memory::filled();
        for (place, x) in lent.numbers.iter_mut().zip(&self.numbers).take(45) {
            *place = *x;
        }
        lent.counts = self.counts();
        lent
    }
}

impl Memory {
    /// Memory in which each place holds another value, and none a NaN.
    pub fn filled() -> Self {
        let mut pattern = 0xA5A5_A5A5_A5A5_A5A5u64;
        let mut numbers = [0.0; 59];
        for x in numbers.iter_mut() {
            *x = numerics::from_bits(pattern);
            pattern = pattern.wrapping_add(1);
        }
        let counts = [0xA5A5, 0xA5A6, 0xA5A7];
        Self { numbers, counts }
    }

    /// Whether every number has the pattern, and every count the value, that it has in the other.
    pub fn is_same(&self, other: &Self) -> bool {
        for (x, y) in self.numbers.iter().zip(&other.numbers) {
            if numerics::to_bits(*x) != numerics::to_bits(*y) {
                return false;
            }
        }
        self.counts == other.counts
    }
}

/// Changes a bit of one number, or behind them of one count.
pub fn spoil(numbers: &mut [f64; 59], counts: &mut [u16; 3], place: u64) {
    let place = (place % 256) as usize;
    if place < 59 {
        numbers[place] = numerics::from_bits(numerics::to_bits(numbers[place]) ^ 1);
    } else if place < 62 {
        counts[place - 59] ^= 1;
    }
}
