// Amounts in tenths of a cent as whole cents.
ghost use Rattle.std.specs.Prelude.{◌≡◌, pos, nat_abs};
ghost use Rattle.printing.specs.Cents.{rule, half_of, edge, cents};

// The first cycle in which an exact half goes to the even cent.
const EVEN_FROM: u16 = 500;

// The rule of a cycle: whether an exact half goes to the even cent. Else it goes away from zero.
pub fn half_to_even(cycle: u16) -> bool
    ensures { rule result ≡ half_of cycle }
{
    cycle >= EVEN_FROM
}

// The least rest that makes a cent more: 5, but 6 where a half goes to the even cent and the whole cents are even, so that it goes to them.
fn edge(whole: i64, even: bool) -> i64
    ensures { result ≡ pos (edge (rule even) (nat_abs whole)) }
{
    if !even {
        return 5;
    }
    if whole % 2 == 0 {
        return 6;
    }
    5
}

// The whole cents of an amount: the nearest, an exact half by the rule. The quotient is rounded toward zero and the rest
// has the amount's sign, so that positive and negative amounts mirror each other.
pub fn cents(amount: i64, even: bool) -> i64
    ensures { result ≡ cents (rule even) amount }
{
    let whole = amount / 10;
    let rest = amount % 10;
    let least = edge(whole, even);
    if rest >= least {
        return whole + 1;
    }
    if rest <= -least {
        return whole - 1;
    }
    whole
}
