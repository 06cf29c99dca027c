use sn_accounts::Accounts;

/// The numbers of users and of groups, by their names.
#[derive(Drop)]
pub struct Names<'a> {
    pub users: Accounts<'a>,
    pub groups: Accounts<'a>,
}
