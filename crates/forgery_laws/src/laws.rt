ghost use Rattle.forgery_laws.specs.Forgeries.{ClientsAloneForge, ScriptsForgeNothing};

/// Whatever happens in a cluster, a forged token comes from a client: as long as clients themselves present no other tokens than those that
/// the NameNode granted before, no message brings another one to a DataNode, and no event presents a forged token (HADOOP-4359). Does
/// nothing.
pub fn clients_alone_forge()
    ensures { ClientsAloneForge }
{}

/// No line of a script presents a forged token, and no message brings one, since a line names a token by its row in the ledger. So what the
/// laws about clusters say as long as nothing is forged holds of every script: whoever was never granted a block reads and writes nothing of
/// it. Does nothing.
pub fn scripts_forge_nothing()
    ensures { ScriptsForgeNothing }
{}
