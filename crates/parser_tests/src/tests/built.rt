use py_ast::{BinaryOperator, ComparisonOperator, Expr, Module, NameAt, Stmt, Target, Targets};
use py_built::build;
use shed_base::{Name, Names, NoMemory, Place};
use sqlite_items::{Boxed, Items};
use std::alloc::{AllocError, Global};
use std::test::Fail;

fn at(line: u32, column: u32) -> Place {
    Place {
        module: 0,
        line,
        column,
    }
}

fn one<T: Drop>(alloc: Global, item: T) -> Result<Items<T>, AllocError> {
    let mut items = Items::new(alloc);
    items.push(item)?;
    Ok(items)
}

fn two<T: Drop>(alloc: Global, first: T, second: T) -> Result<Items<T>, AllocError> {
    let mut items = one(alloc, first)?;
    items.push(second)?;
    Ok(items)
}

// `name = value`
fn assign(alloc: Global, line: u32, name: Name, value: Expr) -> Result<Stmt, AllocError> {
    let place = at(line, 1);
    let target = Targets::One(Target::Name(NameAt { place, name }));
    Ok(Stmt::Assign(place, one(alloc, target)?, value))
}

// `name(value)`
fn call(alloc: Global, line: u32, name: Name, value: Expr) -> Result<Stmt, AllocError> {
    let place = at(line, 1);
    let callee = Boxed::new(alloc, Expr::Name(place, name))?;
    let call = Expr::Call(at(line, 6), callee, one(alloc, value)?, Items::new(alloc));
    Ok(Stmt::Expr(place, call))
}

// What is built, or the place of the refusal, as text.
fn shown(alloc: Global, names: &Names, body: Items<Stmt>) -> Result<String, NoMemory> {
    match build(alloc, names, &Module { body })? {
        Ok(built) => Ok(format!(in alloc; "{built:?}")?),
        Err(Place { line, column, .. }) => Ok(format!(in alloc; "{line}:{column}")?),
    }
}

#[test]
fn builds_a_module(rt: HostRuntime) -> Result<(), Fail> {
    let alloc = rt.alloc();
    let mut names = Names::new(alloc)?;
    let x = names.intern("x")?;
    let print = names.intern("print")?;
    // x = 1
    // print(x + 2)
    let left = Boxed::new(alloc, Expr::Name(at(2, 7), x))?;
    let right = Boxed::new(alloc, Expr::Number(at(2, 11), 2))?;
    let sum = Expr::Binary(at(2, 9), BinaryOperator::Add, left, right);
    let first = assign(alloc, 1, x, Expr::Number(at(1, 5), 1))?;
    let second = call(alloc, 2, print, sum)?;
    let text = shown(alloc, &names, two(alloc, first, second)?)?;
    let assigned = format!(in alloc; "Assign({:?}, \"x\", Number({:?}, 1))", at(1, 1), at(1, 5))?;
    let left = format!(in alloc; "Boxed {{ inner: Name({:?}, \"x\") }}", at(2, 7))?;
    let right = format!(in alloc; "Boxed {{ inner: Number({:?}, 2) }}", at(2, 11))?;
    let sum = format!(in alloc; "Binary({:?}, Add, {left}, {right})", at(2, 9))?;
    let printed = format!(in alloc; "Print({:?}, {:?}, {sum})", at(2, 1), at(2, 6))?;
    let want = format!(in alloc; "Module {{ body: Items {{ items: [{assigned}, {printed}] }} }}")?;
    assert_eq!(rt; text.as_str(), want.as_str());
    Ok(())
}

#[test]
fn refuses_the_first_place(rt: HostRuntime) -> Result<(), Fail> {
    let alloc = rt.alloc();
    let mut names = Names::new(alloc)?;
    let x = names.intern("x")?;
    let y = names.intern("y")?;
    let print = names.intern("print")?;

    // x = x
    let own = assign(alloc, 1, x, Expr::Name(at(1, 5), x))?;
    let text = shown(alloc, &names, one(alloc, own)?)?;
    assert_eq!(rt; text.as_str(), "1:5");

    // x = (1)
    let inner = Boxed::new(alloc, Expr::Number(at(1, 6), 1))?;
    let parenthesis = assign(alloc, 1, x, Expr::Parenthesis(at(1, 5), inner))?;
    let text = shown(alloc, &names, one(alloc, parenthesis)?)?;
    assert_eq!(rt; text.as_str(), "1:5");

    // print = 1
    let taken = assign(alloc, 1, print, Expr::Number(at(1, 9), 1))?;
    let text = shown(alloc, &names, one(alloc, taken)?)?;
    assert_eq!(rt; text.as_str(), "1:1");

    // x = x / y, where the operator comes after an operand that may be unset
    let left = Boxed::new(alloc, Expr::Name(at(1, 5), x))?;
    let right = Boxed::new(alloc, Expr::Name(at(1, 10), y))?;
    let quotient = Expr::Binary(at(1, 7), BinaryOperator::FloorDivide, left, right);
    let divided = assign(alloc, 1, x, quotient)?;
    let text = shown(alloc, &names, one(alloc, divided)?)?;
    assert_eq!(rt; text.as_str(), "1:5");

    // if 1 < 2:
    //   x = 1
    // print(x)
    let left = Boxed::new(alloc, Expr::Number(at(1, 4), 1))?;
    let right = Boxed::new(alloc, Expr::Number(at(1, 8), 2))?;
    let less = ComparisonOperator::Less;
    let test = Expr::Compare(at(1, 6), less, left, right, Items::new(alloc));
    let inner = assign(alloc, 2, x, Expr::Number(at(2, 7), 1))?;
    let branch = Stmt::If(at(1, 1), test, one(alloc, inner)?, Items::new(alloc));
    let printed = call(alloc, 3, print, Expr::Name(at(3, 7), x))?;
    let text = shown(alloc, &names, two(alloc, branch, printed)?)?;
    assert_eq!(rt; text.as_str(), "3:7");

    // pass
    // break
    let body = two(alloc, Stmt::Pass(at(1, 1)), Stmt::Break(at(2, 1)))?;
    let text = shown(alloc, &names, body)?;
    assert_eq!(rt; text.as_str(), "1:1");
    Ok(())
}
