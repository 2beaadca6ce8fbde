// Words of 64 bits as sets of the numbers below 64, and sets in four words.
#![tactic(auto)]

ghost use Rattle.std.specs.Prelude.{◌≡◌, ◌<◌};
ghost use Rattle.theory.specs.Bool.{member};
ghost use Rattle.theory.specs.Tree.{set_size};
ghost use Rattle.bits.specs.Code.{single_of, full_of, union_of, with_if, without_of, subset_of, disjoint_of, lowest_of, in_words, in_word, Among};

// Whether i is a member.
pub fn has(w: u64, i: usize) -> bool
    ensures { result ≡ member w i }
{
    if i < 64 { (w >> i) % 2 == 1 } else { false }
}

// Whether i, which is below 64, is a member.
pub fn has_below(w: u64, i: usize) -> bool
    requires { i < 64 }
    ensures { result ≡ member w i }
{
    (w >> i) % 2 == 1
}

// The set of i alone; the empty set where i is 64 or more.
pub fn single(i: usize) -> u64
    ensures { member result ≡ single_of i }
{
    if i < 64 { 1 << i } else { 0 }
}

// The numbers below n, and below 64.
pub fn full(n: usize) -> u64
    ensures { member result ≡ full_of n }
{
    if n < 64 { (1 << n) - 1 } else { !0 }
}

// The members of a and those of b.
pub fn union(a: u64, b: u64) -> u64
    ensures { member result ≡ union_of a b }
{
    a | b
}

// The members of w, and i where the test passed; no number from 64 on.
pub fn with_if(w: u64, t: bool, i: usize) -> u64
    ensures { member result ≡ with_if t i w }
{
    if i < 64 {
        return union(w, u64::from(t) << i);
    }
    w
}

// The numbers below n, and below 64, that pass the test.
pub fn among<F: Fn(u16) -> bool>(n: u16, test: F) -> u64
    requires { F.IsAlwaysCallable test }
    ensures { Among (F.post test) n result }
{
    let mut set = 0;
    for i in 0..n {
        set = with_if(set, test(i), usize::from(i));
    }
    set
}

// The members of a that are none of b.
pub fn without(a: u64, b: u64) -> u64
    ensures { member result ≡ without_of a b }
{
    a & !b
}

// Whether every member of a is one of b.
pub fn subset(a: u64, b: u64) -> bool
    ensures { result ≡ subset_of a b }
{
    a & b == a
}

// Whether no member of a is one of b.
pub fn disjoint(a: u64, b: u64) -> bool
    ensures { result ≡ disjoint_of a b }
{
    a & b == 0
}

// How many members.
pub fn size(w: u64) -> u32
    ensures { result ≡ set_size w }
{
    u64::count_ones(w)
}

// The lowest member, 64 for the empty set.
pub fn lowest(w: u64) -> u32
    ensures { result ≡ lowest_of w }
{
    u64::trailing_zeros(w)
}

// Of a set in four words, member i of word q being 64 q + i, word q; no number where q is 4 or more.
pub fn word(set: [u64; 4], q: usize) -> u64
    ensures { member result ≡ in_word q (in_words set) }
{
    set.get(q).copied().unwrap_or(0)
}
