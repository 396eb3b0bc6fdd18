// Tests of the libraries together: the report line, the judgement, the reader and the matrix.
#![tactic(auto)]

#[cfg(test)]
mod expect;
#[cfg(test)]
mod judgement_cases;
#[cfg(test)]
mod large_books;
#[cfg(test)]
mod matrix_cases;
#[cfg(test)]
mod reader_cases;
#[cfg(test)]
mod report_cases;
#[cfg(test)]
mod script;
