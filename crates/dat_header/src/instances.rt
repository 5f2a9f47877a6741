// The options of a header that speak of further instances or of the clock.

ghost use Rattle.std.specs.Prelude.{◌≡◌, not};
ghost use Rattle.std.specs.List.{filter};
ghost use Rattle.dat_header.specs.Allowed.{IsHeader};
ghost use Rattle.dat_header.specs.Written.{is_instance, without_instances};

use crate::header::Header;
use dat_options::Opt;
use trace_base::ListOf;

impl Header {
    /// Removes the options 3 and 4, which say where another instance's data stand and which clock there is, and nothing else
    /// (trace-cmd.dat.v6(5), `options`).
    pub fn drop_instances(&mut self)
        ensures dropped { self.new ≡ without_instances self.old }
        ensures allowed { IsHeader self.old → IsHeader self.new }
    {
        if let Some(options) = self.options.take() {
            let mut kept = options.into_vec();
            keep_others(&mut kept);
            self.options = Some(ListOf::from_vec(kept));
        }
    }
}

fn keep_others(options: &mut Vec<Opt>)
    ensures { options.new.items ≡ filter (λ option. not (is_instance option)) options.old.items }
{
    options.retain(|option| option.id != 3 && option.id != 4);
}
