// The numbers of the stream (bench/soak.h, NUMBERS): "All numbers are unsigned, 64 bits, and wrap." s is lent as `seed` to every draw, so
// that draws stand in the code in the order in which they are made.
ghost use Rattle.std.specs.Prelude.{◌≡◌, ◌*◌, ◌%◌, ◌^◌, ◌<◌};

// "next() adds 9E3779B97F4A7C15h to s"
const STRIDE: u64 = 0x9E37_79B9_7F4A_7C15;

// "STEP[16]"
const STEPS: [u64; 16] = [
    0, 1, 20, 100, 194, 195, 200, 205, 206, 207, 259, 260, 261, 400, 460, 1000,
];

// Gives the low 64 bits of a product. The name stays for its clause: of soak its product too is proved (DECISIONS 31).
pub(crate) fn times(a: u64, b: u64) -> u64
    ensures wraps { result ≡ a * b % 2 ^ 64 }
{
    a.wrapping_mul(b)
}

// "mix(z)"
fn mix(z: u64) -> u64 {
    let first = times(z ^ (z >> 30), 0xBF58_476D_1CE4_E5B9);
    let second = times(first ^ (first >> 27), 0x94D0_49BB_1331_11EB);
    second ^ (second >> 31)
}

// Gives the low half of a mixed number OR its high half: a mask with three bits of four set.
pub(crate) fn mixed_mask(z: u64) -> u32 {
    let mixed = mix(z);
    ((mixed | (mixed >> 32)) & 0xFFFF_FFFF) as u32
}

// "next()"
pub(crate) fn next(seed: &mut u64) -> u64 {
    *seed = seed.wrapping_add(STRIDE);
    mix(*seed)
}

// "draw(n) = next() mod n"
pub(crate) fn draw(seed: &mut u64, n: u64) -> u64
    requires { 0 < n }
    ensures { result < n }
{
    next(seed) % n
}

// draw(65536)
pub(crate) fn draw_word(seed: &mut u64) -> u16 {
    draw(seed, 65536) as u16
}

// "'One in n' is true if draw(n) = 0."
pub(crate) fn one_in(seed: &mut u64, n: u64) -> bool
    requires { 0 < n }
{
    draw(seed, n) == 0
}

// Gives one of a table's values, by a draw of its place.
pub(crate) fn draw_from<T: Copy, const N: usize>(seed: &mut u64, table: &[T; N]) -> T
    requires { 0 < N }
{
    table[draw(seed, N as u64) as usize]
}

// STEP[draw(16)]
pub(crate) fn draw_step(seed: &mut u64) -> u64 {
    draw_from(seed, &STEPS)
}
