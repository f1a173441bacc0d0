//! Where a key stands among pairs.

ghost use Rattle.std.specs.Prelude.{◌≡◌, ◌≤◌, length, drop, take, IfOk, IfErr};
ghost use Rattle.page_index.specs.Pairs.{AreBelow, AreFrom, IsFoundAt, IsGapAt, IsInOrder};

/// How many pairs have a key below the given one, by halving.
pub(crate) fn rank<V>(pairs: &[(u64, V)], key: u64) -> usize
    requires { IsInOrder pairs.now }
    ensures bound { result ≤ length pairs.now }
    ensures below { AreBelow key (take result pairs.now) }
    ensures rest { AreFrom key (drop result pairs.now) }
{
    let mut low = 0;
    let mut high = pairs.len();
    while low < high {
        let middle = low + (high - low) / 2;
        if pairs[middle].0 < key {
            low = middle + 1;
        } else {
            high = middle;
        }
    }
    low
}

/// The index of a key among pairs, or the index that it would get.
#[inline]
pub(crate) fn find<V>(pairs: &[(u64, V)], key: u64) -> Result<usize, usize>
    requires { IsInOrder pairs.now }
    ensures found { IfOk result (IsFoundAt key pairs.now) }
    ensures gap { IfErr result (IsGapAt key pairs.now) }
{
    let k = rank(pairs, key);
    if k == pairs.len() {
        return Err(k);
    }
    if pairs[k].0 == key { Ok(k) } else { Err(k) }
}
