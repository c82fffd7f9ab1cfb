//! Where the elements that pass a test end.

ghost use Rattle.std.specs.Prelude.{◌≡◌, ◌<◌, ◌≤◌, ◌+◌, ◌-◌, ◌^◌, ◌++◌, Bool, true, All, HoldsAt, length, take, option_copied};
ghost use Rattle.yd_pieces.specs.Pieces.{joined, ends_with, in_front, IsBoundary, IsFilled, IsLastPassed};

/// A test of elements, which a search goes by. Its ghost member says which elements pass, so that
/// whoever asks needs no closure.
pub trait Test<T> {
    ghost passes: { Self → T → Bool };

    /// Whether the element passes.
    fn passes(&self, item: &T) -> bool
        ensures { result ≡ passes self.now item.now };
}

/// Whether the last element of the piece passes.
fn is_end_passed<T, P: Test<T>>(piece: &Vec<T>, test: &P) -> bool
    ensures { result ≡ ends_with (P.passes test.now) piece.now }
{
    match piece.last() {
        Some(item) => test.passes(item),
        None => false,
    }
}

/// Whether there is a last element, and it passes.
fn is_last_passed<T, P: Test<T>>(items: &[T], test: &P) -> bool
    ensures { result ≡ true → 0 < length items.now
        × HoldsAt (λ y. P.passes test.now y ≡ true) items.now (length items.now - 1) }
{
    match items.last() {
        Some(item) => test.passes(item),
        None => false,
    }
}

/// A place between pieces that end with an element that passes and those that do not.
fn pieces_passed<T, P: Test<T>>(pieces: &[Vec<T>], test: &P) -> usize
    ensures bound { result ≤ length pieces.now }
    ensures boundary { IsBoundary (ends_with (P.passes test.now)) pieces.now result }
{
    let mut low = 0;
    let mut high = pieces.len();
    while low < high {
        let mid = low + (high - low) / 2;
        if is_end_passed(&pieces[mid], test) {
            low = mid + 1;
        } else {
            high = mid;
        }
    }
    low
}

/// A place between elements that pass and those that do not.
fn items_passed<T, P: Test<T>>(items: &[T], test: &P) -> usize
    ensures bound { result ≤ length items.now }
    ensures boundary { IsBoundary (P.passes test.now) items.now result }
{
    let mut low = 0;
    let mut high = items.len();
    while low < high {
        let mid = low + (high - low) / 2;
        if test.passes(&items[mid]) {
            low = mid + 1;
        } else {
            high = mid;
        }
    }
    low
}

/// How many elements the first pieces have.
pub fn len_before<T>(pieces: &[Vec<T>], end: usize) -> usize
    requires end { end ≤ length pieces.now }
    requires fits { length (joined pieces.now) < 2 ^ 64 }
    ensures { result ≡ length (joined (take end pieces.now)) }
{
    let mut sum = 0;
    for piece in &pieces[..end] {
        sum += piece.len();
    }
    sum
}

/// The same, where all pieces are known to have so many: then the end of all takes no sum.
fn start_of<T>(pieces: &[Vec<T>], all: usize, end: usize) -> usize
    requires end { end ≤ length pieces.now }
    requires all { all ≡ length (joined pieces.now) }
    requires fits { length (joined pieces.now) < 2 ^ 64 }
    ensures { result ≡ length (joined (take end pieces.now)) }
{
    if end == pieces.len() {
        return all;
    }
    len_before(pieces, end)
}

/// A place of the whole between elements that pass and those that do not. So many stand before the
/// last piece.
pub fn point<T, P: Test<T>>(pieces: &[Vec<T>], last: &[T], before: usize, test: &P) -> usize
    requires filled { All IsFilled pieces.now }
    requires before { before ≡ length (joined pieces.now) }
    requires fits { length (joined pieces.now ++ last.now) < 2 ^ 64 }
    ensures bound { result ≤ length (joined pieces.now ++ last.now) }
    ensures boundary { IsBoundary (P.passes test.now) (joined pieces.now ++ last.now) result }
{
    // Often all elements pass.
    if is_last_passed(last, test) {
        return before + last.len();
    }
    let i = pieces_passed(pieces, test);
    let start = start_of(pieces, before, i);
    if i < pieces.len() {
        return start + items_passed(&pieces[i], test);
    }
    start + items_passed(last, test)
}

/// The element in front of a place among items that stand behind pieces.
fn front_of<'a, T>(before: &'a [Vec<T>], items: &'a [T], n: usize) -> Option<&'a T>
    requires filled { All IsFilled before.now }
    requires bound { n ≤ length items.now }
    ensures { option_copied result ≡
        in_front (joined before.now ++ items.now) (length (joined before.now) + n) }
{
    if n > 0 {
        return Some(&items[n - 1]);
    }
    before.last()?.last()
}

/// The element in front of a place of the whole between elements that pass and those that do not.
pub fn front<'a, T, P: Test<T>>(pieces: &'a [Vec<T>], last: &'a [T], test: &P) -> Option<&'a T>
    requires filled { All IsFilled pieces.now }
    ensures { IsLastPassed (P.passes test.now) (joined pieces.now ++ last.now)
        (option_copied result) }
{
    // What is looked for is often the last element of all.
    if is_last_passed(last, test) {
        return last.last();
    }
    let i = pieces_passed(pieces, test);
    if i < pieces.len() {
        let piece = &pieces[i];
        return front_of(&pieces[..i], piece, items_passed(piece, test));
    }
    front_of(pieces, last, items_passed(last, test))
}
