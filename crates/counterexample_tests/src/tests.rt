ghost use Rattle.std.specs.Prelude.{◌≡◌, ◌<◌, ◌≤◌, IfOk, true};
ghost use Rattle.tables.specs.Laws.{are_allowed};
ghost use Rattle.kind_laws.specs.Plain.{plain};
ghost use Rattle.diagram.specs.View.{IsEdge, Keeps};

use counterexample::first_difference;
use diagram::{Builder, Limit};
use evbdd::Evbdd;
use hdd::Hdd;
use k_star_bmd::KStarBmd;
use kind_laws::{Edge, Kind};
use record_store::SoloStore;
use star_bmd::StarBmd;
use std::alloc::Global;
use std::process::Abort;
use std::test::Fail;
use word_base::{Assign, Decomp, Levels, Weight};

/// A number times the variables of some of three levels.
#[derive(Clone, Copy)]
struct Product {
    factor: Weight,
    variables: [bool; 3],
}

const X: Product = Product {
    factor: Weight::ONE,
    variables: [true, false, false],
};

const Y: Product = Product {
    factor: Weight::ONE,
    variables: [false, true, false],
};

const Z: Product = Product {
    factor: Weight::ONE,
    variables: [false, false, true],
};

const XY: Product = Product {
    factor: Weight::ONE,
    variables: [true, true, false],
};

const XYZ: Product = Product {
    factor: Weight::ONE,
    variables: [true, true, true],
};

const ONE: Product = Product {
    factor: Weight::ONE,
    variables: [false, false, false],
};

const ASSIGNMENTS: [[bool; 3]; 8] = [
    [false, false, false],
    [false, false, true],
    [false, true, false],
    [false, true, true],
    [true, false, false],
    [true, false, true],
    [true, true, false],
    [true, true, true],
];

impl Product {
    fn edge<K: Kind>(
        &self,
        rt: &impl Abort,
        builder: &mut Builder<K, SoloStore>,
    ) -> Result<Edge<K>, Limit>
        ensures keeps { Keeps builder.old builder.new }
        ensures good { IfOk result (λ e. IsEdge K.NAME builder.new (plain K.extra_of e)) }
    {
        let product = builder.constant(self.factor);
        let product = times(rt, builder, product, 0, self.variables[0])?;
        let product = times(rt, builder, product, 1, self.variables[1])?;
        times(rt, builder, product, 2, self.variables[2])
    }

    fn value(&self, at: &[bool; 3]) -> i128 {
        let zero = self.variables[0] && !at[0]
            || self.variables[1] && !at[1]
            || self.variables[2] && !at[2];
        if zero { 0 } else { self.factor.get() }
    }
}

/// The edge, times the variable of the level if it is a factor.
fn times<K: Kind>(
    rt: &impl Abort,
    builder: &mut Builder<K, SoloStore>,
    edge: Edge<K>,
    level: u16,
    is_factor: bool,
) -> Result<Edge<K>, Limit>
    requires { IsEdge K.NAME builder.old (plain K.extra_of edge) }
    ensures keeps { Keeps builder.old builder.new }
    ensures good { IfOk result (λ e. IsEdge K.NAME builder.new (plain K.extra_of e)) }
{
    if !is_factor {
        return Ok(edge);
    }
    assert!(rt; level < builder.levels());
    let variable = builder.var(level)?;
    builder.mul(edge, variable)
}

/// The sum of some products.
fn sum<K: Kind>(
    rt: &impl Abort,
    builder: &mut Builder<K, SoloStore>,
    products: &[Product],
) -> Result<Edge<K>, Limit>
    ensures keeps { Keeps builder.old builder.new }
    ensures good { IfOk result (λ e. IsEdge K.NAME builder.new (plain K.extra_of e)) }
{
    let mut sum = builder.constant(Weight::ZERO);
    for product in products {
        sum = one_more(rt, builder, sum, product)?;
    }
    Ok(sum)
}

fn one_more<K: Kind>(
    rt: &impl Abort,
    builder: &mut Builder<K, SoloStore>,
    sum: Edge<K>,
    product: &Product,
) -> Result<Edge<K>, Limit>
    requires { IsEdge K.NAME builder.old (plain K.extra_of sum) }
    ensures keeps { Keeps builder.old builder.new }
    ensures good { IfOk result (λ e. IsEdge K.NAME builder.new (plain K.extra_of e)) }
{
    let product = product.edge(rt, builder)?;
    builder.add(sum, product)
}

/// The entry of a sum of products.
fn value(products: &[Product], at: &[bool; 3]) -> i128 {
    let mut sum = 0i128;
    for product in products {
        sum = sum.wrapping_add(product.value(at));
    }
    sum
}

/// The first assignment at which two sums of products differ, by a search through all.
fn search(left: &[Product], right: &[Product]) -> Option<[bool; 3]> {
    for at in &ASSIGNMENTS {
        if value(left, at) != value(right, at) {
            return Some(*at);
        }
    }
    None
}

/// A builder over three levels.
fn three_levels<K: Kind>(
    alloc: Global,
    letters: &[Decomp; 3],
    cells: u32,
) -> Result<Builder<K, SoloStore>, Fail>
    requires allowed { are_allowed K.NAME letters.now ≡ true }
    requires some { 0 < cells }
    requires within { cells ≤ 1000 }
{
    let levels = Levels::new(alloc, letters)?;
    let store = SoloStore::create(alloc, cells)?;
    Builder::create(alloc, store, levels, cells, 4).map_err(|_| Fail::from("no memory"))
}

/// The walk between two edges, which the levels from `top` on tell apart.
fn walk_between<K: Kind>(
    rt: &impl Abort,
    builder: &mut Builder<K, SoloStore>,
    top: u16,
    left: Edge<K>,
    right: Edge<K>,
    into: &mut Assign,
) -> Result<(), Limit>
    requires left_good { IsEdge K.NAME builder.old (plain K.extra_of left) }
    requires right_good { IsEdge K.NAME builder.old (plain K.extra_of right) }
{
    assert!(rt; !builder.same(left, right));
    assert!(rt; top <= builder.top(left));
    assert!(rt; top <= builder.top(right));
    assert_eq!(rt;
        into.len() as usize + top as usize,
        builder.levels() as usize
    );
    first_difference(builder, top, left, right, into)
}

/// Stops where the bits are others than these.
fn assert_bits(rt: &impl Abort, found: &Assign, wanted: &[bool]) {
    assert_eq!(rt; found.len() as usize, wanted.len());
    for place in 0..found.len() {
        assert_eq!(rt; found.get(place), wanted[place as usize]);
    }
}

/// Stops where two sums of products do not differ first at these bits, over the levels from `top` on.
fn check<K: Kind>(
    rt: &impl Abort,
    alloc: Global,
    builder: &mut Builder<K, SoloStore>,
    top: u16,
    left: &[Product],
    right: &[Product],
    wanted: &[bool],
) -> Result<(), Fail> {
    let left = sum(rt, builder, left)?;
    let right = sum(rt, builder, right)?;
    let mut found = Assign::new(alloc, builder.levels().saturating_sub(top))?;
    walk_between(rt, builder, top, left, right, &mut found)?;
    assert_bits(rt, &found, wanted);
    Ok(())
}

/// Bits by hand.
fn check_rows<K: Kind>(
    rt: &impl Abort,
    alloc: Global,
    builder: &mut Builder<K, SoloStore>,
) -> Result<(), Fail> {
    check(rt, alloc, builder, 0, &[XY], &[], &[true, true, false])?;
    check(
        rt,
        alloc,
        builder,
        0,
        &[X, Y, XY],
        &[X, Y],
        &[true, true, false],
    )?;
    check(rt, alloc, builder, 0, &[X, Y], &[Y], &[true, false, false])?;
    check(rt, alloc, builder, 0, &[Y], &[], &[false, true, false])?;
    check(
        rt,
        alloc,
        builder,
        0,
        &[Y, Z],
        &[Y, XYZ],
        &[false, false, true],
    )?;
    check(rt, alloc, builder, 0, &[XYZ], &[], &[true, true, true])?;
    check(rt, alloc, builder, 0, &[], &[ONE], &[false, false, false])?;
    check(
        rt,
        alloc,
        builder,
        0,
        &[X, ONE],
        &[X],
        &[false, false, false],
    )?;
    check(rt, alloc, builder, 1, &[], &[Y], &[true, false])?;
    check(rt, alloc, builder, 2, &[Z], &[ONE], &[false])?;
    check(rt, alloc, builder, 3, &[ONE], &[], &[])
}

fn check_rows_at<K: Kind>(rt: &impl Abort, alloc: Global, letters: &[Decomp; 3]) -> Result<(), Fail>
    requires { are_allowed K.NAME letters.now ≡ true }
{
    let mut builder = three_levels::<K>(alloc, letters, 1000)?;
    check_rows(rt, alloc, &mut builder)
}

#[test]
fn first_differences_by_hand(rt: HostRuntime) -> Result<(), Fail> {
    for letter in [Decomp::S, Decomp::P, Decomp::N] {
        let letters = [letter, letter, letter];
        check_rows_at::<Hdd>(&rt, rt.alloc(), &letters)?;
        check_rows_at::<KStarBmd>(&rt, rt.alloc(), &letters)?;
    }
    check_rows_at::<Evbdd>(&rt, rt.alloc(), &[Decomp::S, Decomp::S, Decomp::S])?;
    check_rows_at::<StarBmd>(&rt, rt.alloc(), &[Decomp::P, Decomp::P, Decomp::P])
}

/// The next number of a sequence that looks random.
fn next(state: u64) -> u64 {
    let state = state ^ (state << 13);
    let state = state ^ (state >> 7);
    state ^ (state << 17)
}

fn random_product(state: u64) -> Product {
    let factor = match (state >> 32) % 5 {
        0 => Weight::ZERO,
        1 => Weight::ONE,
        2 => Weight::TWO,
        3 => Weight::ONE.neg(),
        _ => Weight::TWO.neg(),
    };
    Product {
        factor,
        variables: [
            (state >> 16) % 2 == 0,
            (state >> 24) % 2 == 0,
            (state >> 40) % 2 == 0,
        ],
    }
}

/// Compares a walk with a search.
fn check_search<K: Kind>(
    rt: &impl Abort,
    alloc: Global,
    builder: &mut Builder<K, SoloStore>,
    left: &[Product],
    right: &[Product],
) -> Result<(), Fail> {
    match search(left, right) {
        Some(at) => check(rt, alloc, builder, 0, left, right, &at),
        None => {
            let left = sum(rt, builder, left)?;
            let right = sum(rt, builder, right)?;
            assert!(rt; builder.same(left, right));
            Ok(())
        }
    }
}

/// The sum of three random products.
fn random_sum(first: u64, second: u64, third: u64) -> [Product; 3] {
    let first = random_product(first);
    let second = random_product(second);
    let third = random_product(third);
    [first, second, third]
}

/// Pairs of random sums that have two products in common.
fn check_random<K: Kind>(
    rt: &impl Abort,
    alloc: Global,
    builder: &mut Builder<K, SoloStore>,
    seed: u64,
) -> Result<(), Fail> {
    let mut first = seed;
    for _ in 0..40 {
        let second = next(first);
        let third = next(second);
        let fourth = next(third);
        let left = random_sum(first, second, third);
        let right = random_sum(first, second, fourth);
        check_search(rt, alloc, builder, &left, &right)?;
        check_search(rt, alloc, builder, &left, &right[..2])?;
        first = next(fourth);
    }
    Ok(())
}

fn check_random_at<K: Kind>(
    rt: &impl Abort,
    alloc: Global,
    letters: &[Decomp; 3],
    seed: u64,
) -> Result<(), Fail>
    requires { are_allowed K.NAME letters.now ≡ true }
{
    let mut builder = three_levels::<K>(alloc, letters, 1000)?;
    check_random(rt, alloc, &mut builder, seed)
}

#[test]
fn random_walks_end_where_a_search_does(rt: HostRuntime) -> Result<(), Fail> {
    let alloc = rt.alloc();
    for letter in [Decomp::S, Decomp::P, Decomp::N] {
        let letters = [letter, letter, letter];
        check_random_at::<Hdd>(&rt, alloc, &letters, 88_172_645_463_325_252)?;
        check_random_at::<KStarBmd>(&rt, alloc, &letters, 88_172_645_463_325_252)?;
    }
    let mixed = [Decomp::N, Decomp::S, Decomp::P];
    check_random_at::<Hdd>(&rt, alloc, &mixed, 1_234_567_891_011)?;
    check_random_at::<KStarBmd>(&rt, alloc, &mixed, 1_234_567_891_011)?;
    let shannon = [Decomp::S, Decomp::S, Decomp::S];
    check_random_at::<Evbdd>(&rt, alloc, &shannon, 5_172_645_463_325_252)?;
    let positive = [Decomp::P, Decomp::P, Decomp::P];
    check_random_at::<StarBmd>(&rt, alloc, &positive, 5_172_645_463_325_252)
}

/// The edge, times a product.
fn times_product<K: Kind>(
    rt: &impl Abort,
    builder: &mut Builder<K, SoloStore>,
    edge: Edge<K>,
    product: &Product,
) -> Result<Edge<K>, Limit>
    requires { IsEdge K.NAME builder.old (plain K.extra_of edge) }
    ensures good { IfOk result (λ e. IsEdge K.NAME builder.new (plain K.extra_of e)) }
{
    let product = product.edge(rt, builder)?;
    builder.mul(edge, product)
}

/// The sum of two products, the first of which is there only where X is 0.
fn more_at_zero<K: Kind>(
    rt: &impl Abort,
    builder: &mut Builder<K, SoloStore>,
    first: &Product,
    second: &Product,
) -> Result<Edge<K>, Limit>
    ensures good { IfOk result (λ e. IsEdge K.NAME builder.new (plain K.extra_of e)) }
{
    let x = X.edge(rt, builder)?;
    let one = builder.constant(Weight::ONE);
    let low = builder.sub(one, x)?;
    let low = times_product(rt, builder, low, first)?;
    one_more(rt, builder, low, second)
}

/// Whether a walk from 0 to the sum is refused so.
fn is_refused<K: Kind>(
    rt: &impl Abort,
    alloc: Global,
    builder: &mut Builder<K, SoloStore>,
    first: &Product,
    second: &Product,
    limit: Limit,
) -> Result<bool, Fail> {
    let sum = more_at_zero(rt, builder, first, second)?;
    let zero = builder.constant(Weight::ZERO);
    let mut into = Assign::new(alloc, builder.levels())?;
    let walked = walk_between(rt, builder, 0, zero, sum, &mut into);
    Ok(walked == Err(limit))
}

/// At negative Davio both parts of this sum are weights, and their sum is none. The parts Y and Z of the other are known
/// to a store of seven nodes, which is full by then, and the node of their sum is not.
#[test]
fn sums_of_parts_meet_the_limits(rt: HostRuntime) -> Result<(), Fail> {
    let letters = [Decomp::N, Decomp::N, Decomp::N];
    let greatest = Product {
        factor: Weight::MAX,
        variables: [false, false, false],
    };
    let mut builder = three_levels::<Hdd>(rt.alloc(), &letters, 100)?;
    assert!(rt;
        is_refused(
            &rt,
            rt.alloc(),
            &mut builder,
            &greatest,
            &greatest,
            Limit::Overflow
        )?
    );
    let mut small = three_levels::<Hdd>(rt.alloc(), &letters, 7)?;
    assert!(rt; is_refused(&rt, rt.alloc(), &mut small, &Z, &Y, Limit::Full)?);
    Ok(())
}
