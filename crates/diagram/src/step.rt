/// What a walk does next.
#[derive(Clone, Copy, Debug, PartialEq, Eq)]
pub(crate) enum Step<B, A> {
    /// It goes on with a part of the operands.
    Below(B),
    /// It answers the call that it is at.
    Answer(A),
}
