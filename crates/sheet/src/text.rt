// What a line is made of. Polynomials are written as in RULES Text: each coefficient, then the letters that have an exponent.
use monomial::exponent;
use reasons::Reason;
use std::fmt;
use std::fmt::Write;

// The polynomial in an array, up to the zero words behind its terms. The zero polynomial has no term, and is written 0.
#[derive(Clone, Copy)]
pub struct Poly<'a>(pub &'a [u64]);

// A coefficient, and then the letters of a monomial word that have an exponent.
#[derive(Clone, Copy)]
struct Term {
    word: u64,
    coefficient: u64,
}

// The words of an array, in hexadecimal.
#[derive(Clone, Copy)]
pub struct Words<'a>(pub &'a [u64]);

// A reply with its meaning.
#[derive(Clone, Copy)]
pub struct Reply(pub u64);

impl fmt::Display for Poly<'_> {
    fn fmt<W: fmt::Write>(&self, f: &mut fmt::Formatter<W>) -> fmt::Result {
        let mut terms = self
            .0
            .chunks_exact(2)
            .map(|record| Term {
                word: record[0],
                coefficient: record[1],
            })
            .take_while(|term| term.coefficient != 0);
        let Some(first) = terms.next() else {
            return f.write_str("0");
        };
        write!(f, "{first}")?;
        for term in terms {
            write!(f, "+{term}")?;
        }
        Ok(())
    }
}

impl fmt::Display for Term {
    fn fmt<W: fmt::Write>(&self, f: &mut fmt::Formatter<W>) -> fmt::Result {
        write!(f, "{}", self.coefficient)?;
        for (letter, name) in ['x', 'y', 'z', 't'].iter().enumerate() {
            match exponent(self.word, letter as u64) {
                0 => (),
                1 => write!(f, "*{name}")?,
                power => write!(f, "*{name}^{power}")?,
            }
        }
        Ok(())
    }
}

impl fmt::Display for Words<'_> {
    fn fmt<W: fmt::Write>(&self, f: &mut fmt::Formatter<W>) -> fmt::Result {
        for word in self.0 {
            write!(f, " {word:016x}")?;
        }
        Ok(())
    }
}

impl fmt::Display for Reply {
    fn fmt<W: fmt::Write>(&self, f: &mut fmt::Formatter<W>) -> fmt::Result {
        let number = self.0;
        if number == 0 {
            return f.write_str("0 (done)");
        }
        match Reason::try_from(number) {
            Ok(reason) => write!(f, "{number} ({reason})"),
            Err(unknown) => write!(f, "{number} ({unknown})"),
        }
    }
}

// Standard output, by the kit's `io`, which rests on one C function that is assumed: `println!` would rest on two more. What could not
// be written is passed over.
#[derive(Drop)]
struct Stdout;

impl Write for Stdout {
    fn write_str(&mut self, s: &str) -> fmt::Result {
        io::write_all(1, s.as_bytes());
        Ok(())
    }
}

// Prints a line.
pub fn print<D: fmt::Display + Drop>(line: D) {
    let _ = Stdout.writeln(line);
}
