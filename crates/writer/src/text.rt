// The text, right-aligned in the output: a token before it, and the tokens around a node's children.
// Stays an output and a place, two parameters: the output is lent whole, and each function answers a place in it.
ghost use Rattle.std.specs.Prelude.{◌+◌, ◌≤◌, length};
ghost use Rattle.writer.specs.Form.{form_of_head};
ghost use Rattle.writer.specs.Text.{ForToken, Put, Opened, Closed};

use crate::form::Head;

// A token before the text that begins at a - 2. Where a is below 2 the text had no room, and where this one has none the answer is 0.
// Stays a number, here and in crate output: tried as `Option<usize>`, the deepest trees take 266,960 bytes of stack in place of 198,200, which is more than bench/write allows, and
// writing takes 3 to 10 % more instructions.
pub fn put(output: &mut [u64], a: usize, token: Option<u64>, value: u64) -> usize
    requires { a ≤ length output.old + 2 }
    ensures { ForToken token (λ c. Put c value a result output.old output.new) }
{
    let Some(token) = token else {
        return a;
    };
    if a < 4 {
        return 0;
    }
    output[a - 4] = token;
    output[a - 3] = value;
    a - 2
}

impl Head {
    // The tokens behind a node's children, before the text that begins at a - 2.
    pub fn closing(self, output: &mut [u64], a: usize) -> usize
        requires { a ≤ length output.old + 2 }
        ensures { Closed self.kind self.value (form_of_head self) a result output.old output.new }
    {
        let last = self.last_token();
        let b = put(output, a, last, self.carried(last));
        put(output, b, self.behind_token(), 0)
    }

    // The tokens before a node's children.
    pub fn opening(self, output: &mut [u64], a: usize) -> usize
        requires { a ≤ length output.old + 2 }
        ensures { Opened self.kind self.value (form_of_head self) a result output.old output.new }
    {
        let b = put(output, a, self.third_token(), 0);
        let second = self.second_token();
        let c = put(output, b, second, self.carried(second));
        let first = self.first_token();
        put(output, c, first, self.carried(first))
    }
}
