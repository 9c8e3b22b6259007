//! Of `script_maker`: made scripts against those of a plain program, as texts.
use match_script::print;
use script_maker::make;
use std::alloc::Global;

// The text of a made script.
fn made_text(alloc: Global, seed: u32, clients: u8, steps: u32) -> Option<Vec<u8>> {
    if clients == 0 || 16 < clients || 100_000 < steps {
        return None;
    }
    let script = make(alloc, seed, clients, steps).ok()?;
    print(alloc, &script).ok()
}

// A number that changes with each byte and its place.
fn check_sum(bytes: &[u8]) -> u64 {
    let mut sum = 0u64;
    for byte in bytes {
        sum = (sum % 4_294_967_291 * 257 + u64::from(*byte)) % 4_294_967_291;
    }
    sum
}

#[test]
fn made_scripts_are_those_of_the_plain_program(rt: HostRuntime) {
    for (seed, clients, steps, len, sum) in [
        (0, 1, 0, 1745, 1813317253),
        (7, 2, 40, 2110, 2378396771),
        (1, 1, 1000, 10715, 3098717800),
        (2, 3, 999, 10926, 3686956216),
        (4294967295, 16, 2000, 20987, 3507058013),
        (7, 8, 5000, 48743, 3944766677),
    ] {
        let text = made_text(rt.alloc(), seed, clients, steps).expect(&rt, "memory");
        assert!(rt; text.len() == len && check_sum(text.as_slice()) == sum);
    }
}

// The first lines of the body that the plain program makes of seed 7 for two clients.
const FIRST_LINES: &str = "go
tick
move 0 3 -3 1 0
cpack 0
scan 0
pack 0
move 1 5 6 0 0
cpack 1
up 1 0
scan 1
post 1 g 7f5c
pack 1
down 1 0
tick
move 0 -2 6 0 1
";

#[test]
fn first_lines_of_a_body(rt: HostRuntime) {
    let text = made_text(rt.alloc(), 7, 2, 14).expect(&rt, "memory");
    let lines = FIRST_LINES.as_bytes();
    assert!(rt; lines.len() <= text.len());
    let (_, end) = text.as_slice().split_at(text.len() - lines.len());
    assert!(rt; end == lines);
}
