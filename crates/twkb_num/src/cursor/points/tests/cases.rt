//! The runs that are tried.
ghost use Rattle.std.specs.Prelude.{◌<◌};

use super::*;

// Bytes that numbers are added to.
#[derive(Clone, Copy)]
struct Run {
    bytes: [u8; 640],
    len: usize,
}

impl Run {
    fn new() -> Run {
        Run {
            bytes: [0; 640],
            len: 0,
        }
    }

    // Adds a byte, while there is room.
    fn add(&mut self, byte: u8) {
        if self.len < 640 {
            self.bytes[self.len] = byte;
            self.len += 1;
        }
    }

    // Adds a number of `size` bytes. Of ten bytes, the last one may be 1 at most.
    fn add_number(&mut self, size: usize, last: u8) {
        for i in 1..size {
            self.add(128 + (i % 100) as u8);
        }
        self.add(last);
    }

    // Forty numbers of `others` bytes each, except the one at `place`.
    fn of_forty(others: usize, place: usize, size: usize, last: u8) -> Run {
        let mut run = Run::new();
        for i in 0..40 {
            if i == place {
                run.add_number(size, last);
            } else {
                run.add_number(others, i as u8);
            }
        }
        run
    }

    // The first bytes, or all there are.
    fn front(&self, len: usize) -> &[u8] {
        match self.bytes.get(..len) {
            Some(front) => front,
            None => &self.bytes,
        }
    }
}

// One of forty numbers has another length, and from none to eighty bytes follow the last one.
#[test]
fn one_number_of_any_length_at_any_place(rt: HostRuntime) {
    for place in 0..40 {
        for size in 1..=10 {
            for others in 1..=4 {
                let run = Run::of_forty(others, place, size, 1);
                for left in 0..=80 {
                    are_single_reads(&rt, run.front(run.len.saturating_add(left)), 40, u64::MAX);
                }
            }
        }
    }
}

// A fault at each of forty numbers: cut after each of its bytes, and ten bytes that don't fit.
#[test]
fn a_fault_at_any_place(rt: HostRuntime) {
    for place in 0..40 {
        for others in 1..=5 {
            let long = Run::of_forty(others, place, 10, 2);
            are_single_reads(&rt, long.front(long.len), 40, u64::MAX);
            are_single_reads(&rt, long.front(long.len), 40, 20);
            are_single_reads(&rt, &long.bytes, 40, u64::MAX);
            for size in 0..10 {
                let cut = others * place + size;
                are_single_reads(&rt, long.front(cut), 40, u64::MAX);
            }
        }
    }
}

// Few numbers of many, and all of few.
#[test]
fn any_count(rt: HostRuntime) {
    for others in 1..=5 {
        let run = Run::of_forty(others, 7, 6, 1);
        for numbers in 0..64 {
            are_single_reads(&rt, &run.bytes, numbers, u64::MAX);
            are_single_reads(&rt, run.front(run.len), numbers, numbers / 2);
        }
    }
    equal(&rt, Cursor::new(&[]).pass_numbers(0), Ok(()));
    equal(
        &rt,
        Cursor::new(&[]).pass_numbers(u64::MAX),
        Err(NumFault::Cut),
    );
}

// A million points of each number of axes.
#[test]
fn a_million_points(rt: HostRuntime) {
    let bytes = vec![in rt.alloc(); 2_u8; 1 << 22].expect(&rt, "there is memory");
    run_is_single_reads::<2>(&rt, &bytes, 1 << 20, u64::MAX);
    run_is_single_reads::<3>(&rt, &bytes, 1 << 20, u64::MAX);
    run_is_single_reads::<4>(&rt, &bytes, 1 << 20, u64::MAX);
    passing_is_single_reads(&rt, &bytes, 1 << 22);
}

// Bytes that look like numbers of these lengths, of which some are then others.
#[test]
fn a_hundred_thousand_mutated_runs(rt: HostRuntime) {
    let lengths = [1, 1, 2, 1, 1, 3, 2, 1, 4, 1, 2, 2, 1, 5, 1, 10];
    let mut random = Random(7);
    for round in 0..100_000 {
        let mut run = Run::new();
        let kinds = round % 16 + 1;
        for _ in 0..32 {
            run.add_number(lengths[random.below(kinds)], (random.below(2)) as u8);
        }
        for _ in 0..random.below(4) {
            run.bytes[random.below(128)] ^= 1 << random.below(8);
        }
        let numbers = random.below(48) as u64;
        let lanes_until = if round % 4 == 0 {
            random.below(32) as u64
        } else {
            u64::MAX
        };
        are_single_reads(&rt, run.front(random.below(160)), numbers, lanes_until);
    }
}

// A row of numbers that look as if by chance.
#[derive(Clone, Copy)]
struct Random(u32);

impl Random {
    // A number below this one.
    fn below(&mut self, many: usize) -> usize
        requires { 0 < many }
        ensures { result < many }
    {
        self.0 = self.0.wrapping_mul(1_664_525).wrapping_add(1_013_904_223);
        (self.0 >> 8) as usize % many
    }
}
