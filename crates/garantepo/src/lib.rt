// The library for programs in C, and in any language that calls C: every call of docs/RULES.md under its own name. A slice is a pointer
// and its number of words; `include/garantepo.h` says what a host has to keep to. Each function is one call of the proved library, and
// its contract cites the same definition.
#![tactic(auto)]

ghost use Rattle.std.specs.Prelude.{◌≡◌, []};
ghost use Rattle.field.specs.Answers.{field_sum_of, field_product_of, inverse_of, balanced_of, residue_of};
ghost use Rattle.monomial.specs.Layout.{base};
ghost use Rattle.monomial.specs.Answers.{pack_of, unpack_of};
ghost use Rattle.services.specs.Services.{check_of, profile_of, run_of};
ghost use Rattle.calls.specs.Outcomes.{outcome};
ghost use Rattle.sums.specs.Sums.{sum_of, difference_of};
ghost use Rattle.product.specs.Products.{product_of};
ghost use Rattle.division.specs.Division.{divide_of, test_of};

use field::{Balance, Value};
use monomial::Exponents;
use refusals::report::Report;
use services::profile::Profiled;
use services::run::Part;

// Whether a slice is a polynomial modulo p.
#[unsafe(no_mangle)]
pub extern "C" fn garantepo_check(p: u64, a: &[u64]) -> Report
    ensures { result ≡ check_of p a.now }
{
    services::check::check(p, a)
}

// The profile of a polynomial, beside its report.
#[unsafe(no_mangle)]
pub extern "C" fn garantepo_profile_of(p: u64, a: &[u64]) -> Profiled
    ensures { result ≡ profile_of p a.now }
{
    services::profile::profile_of(p, a)
}

// Where the terms with a power of x lie, in words of the slice lent.
#[unsafe(no_mangle)]
pub extern "C" fn garantepo_run(a: &[u64], power: u64) -> Part
    ensures { result ≡ run_of a.now power }
{
    services::run::run_part(a, power)
}

// The sum of two polynomials.
#[unsafe(no_mangle)]
pub extern "C" fn garantepo_sum(p: u64, a: &[u64], b: &[u64], out: &mut [u64]) -> Report
    ensures { outcome result out.new [] [] ≡ sum_of p a.now b.now out.old }
{
    sums::sum(p, a, b, out)
}

// The difference of two polynomials.
#[unsafe(no_mangle)]
pub extern "C" fn garantepo_difference(p: u64, a: &[u64], b: &[u64], out: &mut [u64]) -> Report
    ensures { outcome result out.new [] [] ≡ difference_of p a.now b.now out.old }
{
    sums::difference(p, a, b, out)
}

// The product of two polynomials.
#[unsafe(no_mangle)]
pub extern "C" fn garantepo_product(
    p: u64,
    a: &[u64],
    b: &[u64],
    out: &mut [u64],
    work: &mut [u64],
) -> Report
    ensures { outcome result out.new [] work.new
        ≡ product_of p a.now b.now out.old work.old }
{
    product::product(p, a, b, out, work)
}

// Division with remainder.
#[unsafe(no_mangle)]
pub extern "C" fn garantepo_divide(
    p: u64,
    f: &[u64],
    g: &[u64],
    q: &mut [u64],
    r: &mut [u64],
    work: &mut [u64],
) -> Report
    ensures { outcome result q.new r.new work.new
        ≡ divide_of p f.now g.now q.old r.old work.old }
{
    division::division::divide(p, f, g, q, r, work)
}

// The divide test.
#[unsafe(no_mangle)]
pub extern "C" fn garantepo_divides(
    p: u64,
    f: &[u64],
    g: &[u64],
    q: &mut [u64],
    work: &mut [u64],
) -> Report
    ensures { outcome result q.new [] work.new
        ≡ test_of p f.now g.now q.old work.old }
{
    division::test::divides(p, f, g, q, work)
}

// The sum of two residues.
#[unsafe(no_mangle)]
pub extern "C" fn garantepo_field_sum(p: u64, a: u64, b: u64) -> Value
    ensures { result ≡ field_sum_of p a b }
{
    field::sum(p, a, b)
}

// The product of two residues.
#[unsafe(no_mangle)]
pub extern "C" fn garantepo_field_product(p: u64, a: u64, b: u64) -> Value
    ensures { result ≡ field_product_of p a b }
{
    field::product(p, a, b)
}

// The inverse of a residue other than 0.
#[unsafe(no_mangle)]
pub extern "C" fn garantepo_field_inverse(p: u64, a: u64) -> Value
    ensures { result ≡ inverse_of p a }
{
    field::inverse(p, a)
}

// The residue of a signed number.
#[unsafe(no_mangle)]
pub extern "C" fn garantepo_residue(p: u64, n: i32) -> Value
    ensures { result ≡ residue_of p n }
{
    field::residue(p, n)
}

// The balanced value of a residue.
#[unsafe(no_mangle)]
pub extern "C" fn garantepo_balanced(p: u64, c: u64) -> Balance
    ensures { result ≡ balanced_of p c }
{
    field::balanced(p, c)
}

// The monomial word of four exponents.
#[unsafe(no_mangle)]
pub extern "C" fn garantepo_pack(x: u64, y: u64, z: u64, t: u64) -> Value
    ensures { result ≡ pack_of base (x, (y, (z, (t, tt)))) }
{
    monomial::pack(x, y, z, t)
}

// The four exponents of a monomial word.
#[unsafe(no_mangle)]
pub extern "C" fn garantepo_unpack(word: u64) -> Exponents
    ensures { result ≡ unpack_of base word }
{
    monomial::unpack(word)
}
