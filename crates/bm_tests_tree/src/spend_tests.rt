//! A tree of items that have to be spent, ended before it is empty. `rt try --test --fail-alloc N` makes the Nth allocation fail,
//! so that one of the inserts is refused; the test holds there too.

use bm_tree::{RedBlack, Spend};
use std::alloc::Global;
use std::process::Abort;

// An item that cannot be dropped: its amount has to be paid.
struct Debt(u32);

// Who pays: how many debts, of which sum, the last key, and whether the keys ascended.
#[derive(Drop)]
struct Payer {
    paid: u32,
    sum: u32,
    last: u32,
    ascending: bool,
}

impl Spend<Debt> for Payer {
    ghost use Rattle.std.specs.Prelude.{◌≡◌};

    ghost can_spend = { λ _ _ _. Unit {0} };

    ghost spends = { λ _ key _ payer. payer.last ≡ key };

    fn spend(&mut self, key: u32, item: Debt) {
        let Debt(amount) = item;
        self.ascending = self.ascending && self.last <= key;
        self.paid = self.paid.saturating_add(1);
        self.sum = self.sum.saturating_add(amount);
        self.last = key;
    }
}

// Inserts a debt for each key, in the order of the keys given, until one is refused for want of memory. Then, as after every
// out of memory, the tree ends with what it holds.
fn pay_all(rt: &impl Abort, alloc: Global, keys: &[u32]) -> Payer {
    let mut payer = Payer {
        paid: 0,
        sum: 0,
        last: 0,
        ascending: true,
    };
    let mut tree: RedBlack<Debt> = RedBlack::new(alloc);
    let mut refused: u32 = 0;
    for key in keys {
        assert!(rt; tree.len() < 1000);
        if let Err(Debt(amount)) = tree.insert(*key, Debt(key.saturating_add(1000))) {
            assert_eq!(rt; amount, key.saturating_add(1000));
            refused = refused.saturating_add(1);
        }
    }
    let held = tree.len();
    tree.give_up(&mut payer);
    assert_eq!(rt; payer.paid as usize, held);
    assert_eq!(rt; payer.paid.saturating_add(refused) as usize, keys.len());
    payer
}

#[test]
fn each_item_is_spent_once_in_their_order(rt: HostRuntime) {
    let none = pay_all(&rt, rt.alloc(), &[]);
    assert_eq!(rt; none.paid, 0);

    let payer = pay_all(&rt, rt.alloc(), &[5, 1, 4, 1, 3, 9, 2, 6, 5, 3, 5, 8]);
    assert!(rt; payer.ascending);
    assert!(rt; payer.paid < 12 || payer.last == 9);
    assert!(rt; payer.paid < 12 || payer.sum == 12052);
}
