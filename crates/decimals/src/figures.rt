// A whole number of any size as a run of decimal figures, the least significant first.
ghost use Rattle.std.specs.Prelude.{◌≡◌, cond, ◌+◌, ◌-◌, ◌*◌, ◌/◌, ◌^◌, ◌≤◌, ◌<◌, length};
ghost use Rattle.std.proofs.lemmas.List.Edits.{sets};
ghost use Rattle.decimals.specs.Text.{digits};
ghost use Rattle.decimals.specs.Fixed.{whole};
ghost use Rattle.decimals.specs.Figures.{number, Figures};

// The number times f, and c more. Every carry fits 64 bits.
fn raise(run: &mut [u64], f: u64, c: u64)
    requires figures { Figures run.old }
    requires f_bound { f ≤ 4294967296 }
    requires c_bound { c ≤ 1152921504606846976 }
    requires c_bound_2 { number run.old * f + c < 10 ^ length run.old }
    ensures figures_2 { Figures run.new }
    ensures run_after { number run.new ≡ number run.old * f + c }
{
    let mut carry = c;
    for d in run.iter_mut() {
        let t = *d * f + carry;
        *d = t % 10;
        carry = t / 10;
    }
}

// The number divided by g, the rest cut.
fn lower(run: &mut [u64], g: u64)
    requires figures { Figures run.old }
    requires g_nonzero { 0 < g }
    requires g_bound { g ≤ 4294967296 }
    ensures figures_2 { Figures run.new }
    ensures run_after { number run.new ≡ number run.old / g }
{
    let mut rest = 0;
    for i in (0..run.len()).rev() {
        let t = rest * 10 + run[i];
        run[i] = t / g;
        rest = t % g;
    }
}

// What is added before a division by g that rounds up.
fn extra(away: bool, g: u64) -> u64
    requires { 0 < g }
    ensures { result ≡ cond away (g - 1) 0 }
{
    if away {
        return g - 1;
    }
    0
}

// The number divided by g, the rest cut or counted as one more.
fn divide(run: &mut [u64], away: bool, g: u64)
    requires figures { Figures run.old }
    requires g_nonzero { 0 < g }
    requires g_bound { g ≤ 4294967296 }
    requires run_bound { number run.old + 4294967296 ≤ 10 ^ length run.old }
    ensures figures_2 { Figures run.new }
    ensures run_after { number run.new ≡ whole away (number run.old) g }
{
    raise(run, 1, extra(away, g));
    lower(run, g);
}

fn power(k: usize) -> u64
    requires { k ≤ 32 }
    ensures { result ≡ 2 ^ k }
{
    1u64 << k
}

// The number times 2^k, at most 32 factors at once.
fn double(run: &mut [u64], k: usize)
    requires figures { Figures run.old }
    requires k_bound { number run.old * 2 ^ k < 10 ^ length run.old }
    ensures figures_2 { Figures run.new }
    ensures run_after { number run.new ≡ number run.old * 2 ^ k }
{
    for _ in 0..k / 32 {
        raise(run, power(32), 0);
    }
    if k % 32 > 0 {
        raise(run, power(k % 32), 0);
    }
}

// The number divided by 2^k, rounded, at most 32 factors at once.
fn halve(run: &mut [u64], away: bool, k: usize)
    requires figures { Figures run.old }
    requires run_bound { number run.old + 4294967296 ≤ 10 ^ length run.old }
    ensures figures_2 { Figures run.new }
    ensures run_after { number run.new ≡ whole away (number run.old) (2 ^ k) }
{
    for _ in 0..k / 32 {
        divide(run, away, power(32));
    }
    if k % 32 > 0 {
        divide(run, away, power(k % 32));
    }
}

// The number in units of 2^-1074 as a whole one, rounded.
fn scale(run: &mut [u64], away: bool, j: usize)
    requires figures { Figures run.old }
    requires run_len { length run.old ≡ 330 }
    requires run_bound { number run.old < 9671406556917033397649408 }
    requires j_bound { j ≤ 2045 }
    ensures figures_2 { Figures run.new }
    ensures run_after { number run.new ≡ whole away (number run.old * 2 ^ j) (2 ^ 1074) }
    ensures run_bound_2 { number run.new < 10 ^ 318 }
{
    if j < 1074 {
        halve(run, away, 1074 - j);
        return;
    }
    double(run, j - 1074);
}

// q * 2^j / 2^1074 in billionths, rounded.
pub fn round(run: &mut [u64], away: bool, q: u64, j: usize)
    requires figures { Figures run.old }
    requires run_len { length run.old ≡ 330 }
    requires run_value { number run.old ≡ 0 }
    requires q_bound { q < 9007199254740992 }
    requires j_bound { j ≤ 2045 }
    ensures figures_2 { Figures run.new }
    ensures run_after { number run.new ≡ whole away (q * 2 ^ j * 1000000000) (2 ^ 1074) }
    ensures run_bound { number run.new < 10 ^ 318 }
{
    raise(run, 1, q);
    raise(run, 1000000000, 0);
    scale(run, away, j);
}

// How many figures the number has; none for 0.
pub fn count(run: &[u64]) -> usize
    requires { Figures run.now }
    ensures upper_bound { result ≤ length run.now }
    ensures run_bound { number run.now < 10 ^ result }
    ensures result_bound { 0 < result → 10 ^ (result - 1) ≤ number run.now }
{
    for i in (0..run.len()).rev() {
        if run[i] != 0 {
            return i + 1;
        }
    }
    0
}

// The k figures from a place on as text, the least significant last.
pub fn put_figures(out: &mut [u8], at: usize, run: &[u64], from: usize, k: usize)
    requires figures { Figures run.now }
    requires k_in_bounds { at + k ≤ length out.old }
    requires k_in_bounds_2 { from + k ≤ length run.now }
    ensures { out.new ≡ sets out.old at (digits 10 k (number run.now / 10 ^ from)) }
{
    for j in 0..k {
        out[at + (k - j - 1)] = b'0' + run[from + j] as u8;
    }
}
