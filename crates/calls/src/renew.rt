// The record set anew, its order the free numbers of the state that tables show.
ghost use Rattle.std.specs.Prelude.{◌≡◌};
ghost use Rattle.lists.specs.promises.Tables.{tables_in, OfShownAll};
ghost use Rattle.disk.specs.Record.{record_in, fresh_record};

use disk::change::renew;
use disk::free::list_free;
use disk::record::RECORD;

pub fn renew_from(rec: &mut [u8; RECORD], nodes: &[u8; 1280])
    ensures { OfShownAll (tables_in nodes.now) (λ rs fs. record_in rec.new ≡ fresh_record fs) }
{
    renew(rec);
    list_free(rec, nodes, 0);
}
