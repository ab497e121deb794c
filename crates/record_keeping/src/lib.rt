// keep over records that stand gathered: the numbers of m vertices, three each, and then their posts, each as the number that has its word.
#![tactic(auto)]

ghost use Rattle.std.specs.Prelude.{◌≡◌, ◌*◌, ◌≤◌, length, take, drop};
ghost use Rattle.words.specs.Words.{words_of};
ghost use Rattle.own_room.specs.OwnRoom.{step_numbers};
ghost use Rattle.keeping.specs.Keeping.{Keeps};

use keeping::keep_posts;
use replies::Refusal;
use words::bits;

// Numbers as the posts that are their words.
fn show_words(numbers: &[i32], posts: &mut [u32])
    requires { length posts.old ≡ length numbers.now }
    ensures { posts.new ≡ words_of numbers.now }
{
    for (k, &number) in numbers.iter().enumerate() {
        posts[k] = bits(number);
    }
}

// The outline of a path and its posts, the words of so many numbers, by way of N own posts and with numbers of the caller's for a step's edges.
fn keep_by<const N: usize>(
    path: &[i32],
    words: &[i32],
    grade: u32,
    own: &mut [i32],
    out: &mut [u8],
) -> Result<usize, Refusal>
    requires { (length words.now ≤ N) × (N ≤ 4096) × (step_numbers grade ≤ length own.old) }
    ensures { Keeps path.now (words_of words.now) grade out.old result out.new }
{
    let m = words.len();
    let mut posts = [0u32; N];
    show_words(words, &mut posts[..m]);
    keep_posts(path, &posts[..m], grade, own, out)
}

// How many own posts there are is for speed alone.
fn keep_with(
    path: &[i32],
    words: &[i32],
    grade: u32,
    own: &mut [i32],
    out: &mut [u8],
) -> Result<usize, Refusal>
    requires { (length words.now ≤ 4096) × (step_numbers grade ≤ length own.old) }
    ensures { Keeps path.now (words_of words.now) grade out.old result out.new }
{
    match words.len() {
        0..=32 => keep_by::<32>(path, words, grade, own, out),
        33..=512 => keep_by::<512>(path, words, grade, own, out),
        _ => keep_by::<4096>(path, words, grade, own, out),
    }
}

// Keeps m records that stand gathered.
pub fn keep_gathered(
    numbers: &[i32],
    m: usize,
    grade: u32,
    out: &mut [u8],
) -> Result<usize, Refusal>
    requires { (4 * m ≤ length numbers.now) × (m ≤ 4096) }
    ensures { Keeps (take (3 * m) numbers.now) (words_of (take m (drop (3 * m) numbers.now))) grade out.old result out.new }
{
    let path = &numbers[..3 * m];
    let words = &numbers[3 * m..4 * m];
    if grade <= 4 {
        let mut own = [0i32; 592];
        return keep_with(path, words, grade, &mut own, out);
    }
    let mut own = [0i32; 8272];
    keep_with(path, words, grade, &mut own, out)
}
