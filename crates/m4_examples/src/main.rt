//! Examples of calls of the library, as a crate of yours would make them: the parity checks of a code, equations with a list
//! of right sides, and a random matrix that is drawn until it is regular.
#![tactic(auto)]

mod codes;
mod equations;
mod printed;
mod random;

use anyhow::Result;
use codes::{are_independent, parity_checks};
use equations::solve_each;
use m4_dense::{How, from_digits, inverse, product};
use printed::print_rows;
use rand_core::SeedableRng;
use rand_xoshiro::Xoshiro256PlusPlus;
use random::draw_regular;
use std::alloc::Global;

/// A generator of the Hamming code of length 7: the words are the sums of its rows.
const GENERATOR: [[u8; 7]; 4] = [*b"1000110", *b"0100101", *b"0010011", *b"0001111"];

/// The equations x + y, y + z and x + z, of which the third is the sum of the others.
const EQUATIONS: [[u8; 3]; 3] = [*b"110", *b"011", *b"101"];

fn main(rt: HostRuntime) -> Result<()> {
    tell_checks(&rt, rt.alloc())?;
    tell_solutions(&rt, rt.alloc())?;
    tell_regular(&rt, rt.alloc())
}

/// Tells the parity checks of the code, and whether they are independent.
fn tell_checks(rt: &impl Print, alloc: Global) -> Result<()> {
    let generator = from_digits(alloc, &GENERATOR)?;
    let checks = parity_checks(alloc, &generator)?;
    println!(rt; "the parity checks of the code")?;
    print_rows(rt, alloc, &checks)?;
    let independent = are_independent(alloc, &checks)?;
    println!(rt; "are they independent: {independent}")?;
    Ok(())
}

/// Tells the solutions of the equations for a right side that has some, and for one that has none.
fn tell_solutions(rt: &impl Print, alloc: Global) -> Result<()> {
    let equations = from_digits(alloc, &EQUATIONS)?;
    let sides = [
        from_digits(alloc, &[*b"1", *b"0", *b"1"])?,
        from_digits(alloc, &[*b"1", *b"0", *b"0"])?,
    ];
    for answer in &solve_each(alloc, &equations, &sides)? {
        match answer {
            Some(solution) => {
                println!(rt; "a solution")?;
                print_rows(rt, alloc, solution)?;
            }
            None => println!(rt; "no solution")?,
        }
    }
    Ok(())
}

/// Tells a random regular matrix, and its product with its inverse.
fn tell_regular(rt: &impl Print, alloc: Global) -> Result<()> {
    let mut source = Xoshiro256PlusPlus::seed_from_u64(1);
    let Some(matrix) = draw_regular(alloc, &mut source, 5, 100)? else {
        println!(rt; "no regular matrix was drawn")?;
        return Ok(());
    };
    println!(rt; "a regular matrix")?;
    print_rows(rt, alloc, &matrix)?;
    if let Some(inverse) = inverse(alloc, How::default(), &matrix)? {
        println!(rt; "times its inverse")?;
        print_rows(
            rt,
            alloc,
            &product(alloc, How::default(), &matrix, &inverse)?,
        )?;
    }
    Ok(())
}
