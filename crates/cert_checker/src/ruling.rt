//! What is ruled of a certificate.

/// What is ruled of a certificate: that it is accepted, or the first obligation that isn't met. Clauses, resolvents and rows
/// are numbered from 1.
#[derive(Clone, Copy)]
pub enum Ruling {
    /// All obligations are met, and no row is left.
    Accepted,
    /// The certificate's clause of this number isn't its own norm within the limit of size, or its `bad` has another number
    /// of arguments than the query's.
    Shape(u64),
    /// The translation's clause of this number isn't covered by the next row.
    Cover(u64),
    /// Of this solved and this unsolved clause of the certificate, the resolvent of that number isn't covered by the next
    /// row; the number is 0 where the pair is large.
    Closure(u64, u64, u64),
    /// The certificate's clause of this number, which is solved and concludes `bad`, isn't satisfied by the next goal row.
    Goal(u64),
    /// The row of this number, goal rows counted behind cover rows, is the first that is left over.
    Extra(u64),
    /// The protocol and the query are too large to be translated, at this point.
    Translation(u32),
}
